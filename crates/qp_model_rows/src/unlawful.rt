//! Journals that are lawful up to one definition, which they break. Each function here does nothing: its contract is the fact.

ghost use Rattle.std.specs.Prelude.{[], ◌∷◌};
ghost use Rattle.qp_model_rows.specs.Broken.{BreaksLives, BreaksKernelLane};
ghost use Rattle.qp_model_rows.specs.Systems.{lamp, careful};
ghost use Rattle.qp_model_rows.specs.Journals.{not_dropped, wrong_floor};

/// Lives of a block: a refused post gives its block back without dropping its reference.
pub fn a_reference_not_dropped()
    ensures { BreaksLives careful not_dropped 1 1 }
{}

/// Kernel lane: a look at the base states a floor other than 0.
pub fn a_look_with_a_wrong_floor()
    ensures { BreaksKernelLane lamp wrong_floor }
{}
