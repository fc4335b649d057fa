//! One law for each kind of look, for lanes that come and go, and for the start and the end. Each function here does nothing: its
//! contract is the law.

ghost use Rattle.qp_table.specs.Laws.{LooksKeepTheRule, ReadsKeepTheRule, ShownPoolsKeepTheRule, EmptyPoolsKeepTheRule, SeenQueuesKeepTheRule, EmptyQueuesKeepTheRule, FullQueuesKeepTheRule, NoEntryKeepsTheRule, NoLastInKeepsTheRule, HoldersLearnTheEvent, NewViewsKeepTheRule, OnlookersKeepTheRule, GrantsKeepTheRule, HandOversKeepTheRule, JoinsKeepTheRule, StartMeetsTheRule, RecordsAreLawful, WholeIsKnown};
ghost use Rattle.qp_table.specs.First.{SoundSystemsStart};
ghost use Rattle.qp_table.specs.TwoTables.{WholeLanesAreLawful};

/// Any view looks at a numbered word.
pub fn looks_keep_the_rule()
    ensures { LooksKeepTheRule }
{}

/// A view reads where the life of its fresh block begins.
pub fn reads_keep_the_rule()
    ensures { ReadsKeepTheRule }
{}

/// A record states the free blocks of a pool, which are at most its reserve.
pub fn shown_pools_keep_the_rule()
    ensures { ShownPoolsKeepTheRule }
{}

/// A record states that a pool has no free block.
pub fn empty_pools_keep_the_rule()
    ensures { EmptyPoolsKeepTheRule }
{}

/// A record states the counts of a queue.
pub fn seen_queues_keep_the_rule()
    ensures { SeenQueuesKeepTheRule }
{}

/// A record states that a queue is empty.
pub fn empty_queues_keep_the_rule()
    ensures { EmptyQueuesKeepTheRule }
{}

/// A record states that at most the margin of a queue is free.
pub fn full_queues_keep_the_rule()
    ensures { FullQueuesKeepTheRule }
{}

/// A record states that a queue is full, for a post.
pub fn no_entry_keeps_the_rule()
    ensures { NoEntryKeepsTheRule }
{}

/// A record states that a queue is full, for a last-in post.
pub fn no_last_in_keeps_the_rule()
    ensures { NoLastInKeepsTheRule }
{}

/// Who holds a reference learns the event of its life.
pub fn holders_learn_the_event()
    ensures { HoldersLearnTheEvent }
{}

/// A view with nothing is added.
pub fn new_views_keep_the_rule()
    ensures { NewViewsKeepTheRule }
{}

/// A view with nothing sees what another has seen.
pub fn onlookers_keep_the_rule()
    ensures { OnlookersKeepTheRule }
{}

/// A lane number is handed out.
pub fn grants_keep_the_rule()
    ensures { GrantsKeepTheRule }
{}

/// Objects are handed over.
pub fn hand_overs_keep_the_rule()
    ensures { HandOversKeepTheRule }
{}

/// One view takes over another.
pub fn joins_keep_the_rule()
    ensures { JoinsKeepTheRule }
{}

/// The first words and the first view meet the rule.
pub fn start_meets_the_rule()
    ensures { StartMeetsTheRule }
{}

/// Every sound system has such words and such a view: its pools' words with all blocks free, all others 0, and a view with
/// lane 0 and the services of all objects.
pub fn sound_systems_start()
    ensures { SoundSystemsStart }
{}

/// Between any two steps the records of all lanes meet the law of words.
pub fn records_are_lawful()
    ensures { RecordsAreLawful }
{}

/// Whole lanes are lawful where their records on the event table are, and those on the side table.
pub fn whole_lanes_are_lawful()
    ensures { WholeLanesAreLawful }
{}

/// The view that has all lanes knows the whole.
pub fn whole_is_known()
    ensures { WholeIsKnown }
{}
