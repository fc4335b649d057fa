//! What is true of a lawful journal's records, made once more.

ghost use Rattle.qp_replay.specs.RerunLaws.{OneThreadMakesIt};

/// Along a serial order of a lawful journal one thread can make each record in its turn, and in the end its lanes are the journal's.
pub fn one_thread_makes_it()
    ensures { OneThreadMakesIt }
{}
