//! Laws of the end of a table that threads share. Each function here does nothing: its contract is the law.

ghost use Rattle.qp_shared_ends.specs.Laws.{EndsAreSound, LanesAreSealed, LogsAreLanes};

/// The logs of the view that has all lanes are the lanes of the rule in some order, but for lanes without records.
pub fn logs_are_lanes()
    ensures { LogsAreLanes }
{}

/// Whole lanes are lawful, and their hands with them are sound.
pub fn ends_are_sound()
    ensures { EndsAreSound }
{}

/// All lanes of a table, in any order, are sealed into a journal of their records.
pub fn lanes_are_sealed()
    ensures { LanesAreSealed }
{}
