//! Laws of the forms of journals. Each function here does nothing: its contract is the law.

ghost use Rattle.qp_unique.specs.FormLaws.{QkHasForms, QvHasForm, SimHasForms};

/// A lawful journal of one thread under the preemptive kernel has form 1, and is in range for it.
pub fn lawful_journals_of_sim_have_form_1()
    ensures { SimHasForms }
{}

/// So does one of the preemptive kernel beside threads of sources.
pub fn lawful_journals_of_qk_have_form_1()
    ensures { QkHasForms }
{}

/// One of the cooperative kernel has form 2, and is in range for it.
pub fn lawful_journals_of_qv_have_form_2()
    ensures { QvHasForm }
{}
