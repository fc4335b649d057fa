//! Laws of answers and outputs. Each function here does nothing: its contract is the law.

ghost use Rattle.qp_run_parts.specs.Laws.{OneAnswer, OneOutput};

/// What a call asks for and the content of the files leave one answer, failures aside. That of a run is one up to its journal: where
/// the files are refused it is one refusal, and else what the records of a lawful journal of the system and the stimuli say which the
/// words and files name. So it is one, but where a lane ended with a `spill`.
pub fn one_answer()
    ensures { OneAnswer }
{}

/// And they leave one whole output, but for two such runs with threads or with a `spill`, and for two cycles of the journal replayed.
pub fn one_output()
    ensures { OneOutput }
{}
