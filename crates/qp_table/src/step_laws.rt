//! One law for each kind of atomic step of a lane. Each function here does nothing: its contract is the law, by which the step keeps
//! the rule of the event table, whatever the other lanes are, and tells its lane what it found.

ghost use Rattle.qp_table.specs.StepLaws.{ReadsTell, PoolEyesTell, GivesTell, DropsTell, FirstReferencesTell, MoreReferencesTell, BacksTell, BeginningsTell, FillsTell, LooksTell, SeenCountsTell, EmptyQueuesTell, EyesTell, TriesTell, LastEyesTell, LastTriesTell, LaysTell, SwapsTell, FreesTell};

/// A reference is dropped.
pub fn drops_tell()
    ensures { DropsTell }
{}

/// The first reference to a fresh block is made, whose words are written.
pub fn first_references_tell()
    ensures { FirstReferencesTell }
{}

/// Another reference is made, beside one in hand.
pub fn more_references_tell()
    ensures { MoreReferencesTell }
{}

/// A used block is put back.
pub fn backs_tell()
    ensures { BacksTell }
{}

/// The word of a fresh block is looked at, which shows where the block's life begins.
pub fn beginnings_tell()
    ensures { BeginningsTell }
{}

/// An event word of a fresh block is written.
pub fn fills_tell()
    ensures { FillsTell }
{}

/// A queue is looked at.
pub fn looks_tell()
    ensures { LooksTell }
{}

/// A queue is looked at, with a record of its counts.
pub fn seen_counts_tell()
    ensures { SeenCountsTell }
{}

/// A queue is looked at for a take, with a record where it is empty.
pub fn empty_queues_tell()
    ensures { EmptyQueuesTell }
{}

/// A queue is looked at for a post, with a record where too few entries are free.
pub fn eyes_tell()
    ensures { EyesTell }
{}

/// An entry is claimed where the word is still as it was last seen; else the word shows more operations.
pub fn tries_tell()
    ensures { TriesTell }
{}

/// A queue is looked at for a last-in post, with a record where it is full.
pub fn last_eyes_tell()
    ensures { LastEyesTell }
{}

/// The same for a last-in post, which the lane makes that serves the queue.
pub fn last_tries_tell()
    ensures { LastTriesTell }
{}

/// The cell of a claim is written.
pub fn lays_tell()
    ensures { LaysTell }
{}

/// The front cell is emptied, where something was laid.
pub fn swaps_tell()
    ensures { SwapsTell }
{}

/// The entry of a take is freed.
pub fn frees_tell()
    ensures { FreesTell }
{}

/// A word of the event of a reference in hand is read.
pub fn reads_tell()
    ensures { ReadsTell }
{}

/// A pool is looked at for a give, with a record where too few blocks are free.
pub fn pool_eyes_tell()
    ensures { PoolEyesTell }
{}

/// The lowest free block is given out where the word is still as it was last seen; else the word shows more operations.
pub fn gives_tell()
    ensures { GivesTell }
{}
