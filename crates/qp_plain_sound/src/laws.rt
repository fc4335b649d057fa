//! Laws of a world of one thread. Each function here does nothing: its contract is the law.

ghost use Rattle.qp_plain_sound.specs.Laws.{CausesStay, EveryBlockStands, LaneGainsIt, LaneKeepsItsCauses, LaneKeepsItsLimit, LanesAreTheLog, LogGrowsAtItsEnd, LogIsNumbered, NewLaneIsNew, NewWorldIsSound, NoteIsAdded, OtherLanesStay, QuietEndRests, StaysSound, StopHasItsCause, ToldByTheBook, WordsAreFew};
ghost use Rattle.qp_plain_sound.specs.Calls.{CallsOnBlocks, CallsOnQueues, CallsOnSignals, CallsOnTimers};

/// A world without records is sound, and its lanes have done nothing yet.
pub fn a_new_world_is_sound()
    ensures sound { NewWorldIsSound }
    ensures new { NewLaneIsNew }
{}

/// A sound world stays sound, whatever record comes next: of every kind, at the end of any lane. Its numbers are those of
/// its word, and its tokens stand in the hands.
pub fn a_world_stays_sound()
    ensures { StaysSound }
{}

/// The lane of the record gains exactly this record as it is told, with its marks, hands, counts and events. What other
/// lanes tell stays; they see the marks, the counts and the hands.
pub fn a_lane_gains_its_record()
    ensures gains { LaneGainsIt }
    ensures note { NoteIsAdded }
    ensures others { OtherLanesStay }
{}

/// No record is lost: each lane is what the one list of all records has of it, that list grows at its end, and each number
/// in it is that of its word's operations so far.
pub fn no_record_is_lost()
    ensures lanes { LanesAreTheLog }
    ensures end { LogGrowsAtItsEnd }
    ensures numbered { LogIsNumbered }
    ensures few { WordsAreFew }
{}

/// What contracts see of a lane is what the law book has of all records: what is told beside each record, the records of
/// each object, the events of references.
pub fn views_are_by_the_book()
    ensures { ToldByTheBook }
{}

/// The limit of a lane, and the causes of the codes that it handed in, are read off its records.
pub fn lanes_keep_their_laws()
    ensures limit { LaneKeepsItsLimit }
    ensures causes { LaneKeepsItsCauses }
    ensures stop { StopHasItsCause }
    ensures stay { CausesStay }
{}

/// The calls on blocks do what their clauses say, where their records come next.
pub fn calls_on_blocks()
    ensures { CallsOnBlocks }
{}

/// The calls on queues do what their clauses say.
pub fn calls_on_queues()
    ensures { CallsOnQueues }
{}

/// The calls on signals do what their clauses say.
pub fn calls_on_signals()
    ensures { CallsOnSignals }
{}

/// The calls on time events do what their clauses say.
pub fn calls_on_time_events()
    ensures { CallsOnTimers }
{}

/// Each block of a sound world is free, or is one block in the hands, or has references; these are exactly those of the
/// entries in the queues and of the hands, each once.
pub fn every_block_stands()
    ensures { EveryBlockStands }
{}

/// Where every queue is empty and the hands are the deferred entries, a run may end.
pub fn a_quiet_end_rests()
    ensures { QuietEndRests }
{}
