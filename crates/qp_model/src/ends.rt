//! How a run ended, by the number that its journal states.

ghost use Rattle.std.specs.Prelude.{◌≡◌, [], ◌∷◌};
ghost use Rattle.qp_model.specs.Ends.{end_asserted, may_cut, quiet, spent};

/// Nothing is left to be done.
pub const QUIET: u8 = 0;

/// An assertion stopped the run.
pub const ASSERTED: u8 = 3;

/// An object had taken its budget, or a lane was full.
pub const SPENT: u8 = 4;

/// The constants of this module are the ends of `specs/Ends`.
pub fn constants_are_the_table()
    ensures { QUIET ∷ ASSERTED ∷ SPENT ∷ [] ≡ quiet ∷ end_asserted ∷ spent ∷ [] }
{}

/// Whether lists may be cut where a run ended so: it stopped early.
pub fn may_cut(end: u8) -> bool
    ensures { result ≡ may_cut end }
{
    end == ASSERTED || end == SPENT
}
