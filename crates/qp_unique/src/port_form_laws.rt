//! The law. The function here does nothing: its contract is the law.

ghost use Rattle.qp_unique.specs.PortFormLaws.{PortHasForms};

/// A lawful journal in which each object has a lane of its own has form 1, and is in range for it.
pub fn lawful_journals_of_port_have_form_1()
    ensures { PortHasForms }
{}
