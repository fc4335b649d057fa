//! Whole journals that are lawful. Each function here does nothing: its contract is the fact.

ghost use Rattle.qp_model.specs.Lawful.{Lawful};
ghost use Rattle.qp_model_rows.specs.Systems.{lamp, levels, nothing, go_once};
ghost use Rattle.qp_model_rows.specs.Journals.{preempted, switched};

/// A lamp is switched on: its event is posted, taken and run to completion.
pub fn a_lamp_is_switched_on()
    ensures { Lawful lamp go_once switched }
{}

/// A step is preempted by higher objects, and `locked` holds back those at or below its ceiling.
pub fn a_step_is_preempted()
    ensures { Lawful (levels 1) go_once preempted }
{}
