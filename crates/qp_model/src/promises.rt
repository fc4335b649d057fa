//! What lawful words promise. Each function here does nothing: its contract is the promise.

ghost use Rattle.qp_model.specs.Refusals.{FullShows, NoEntryShows, NoLifoShows, NilShows, ShortShows, NoBlockShows, ArmedShows, IdleShows};
ghost use Rattle.qp_model.specs.Promises.{OperationsAreNumbered, GivenOutUnreferenced, DroppedOnce, DroppedStood, EventIsOfItsLife, QueueKeepsOrder, FirstInKeepOrder, QueueLosesNothing, LastInIsNext, QueueFits};

/// The operations of each word are numbered 0, 1, 2 and so on, each number once.
pub fn operations_are_numbered()
    ensures { OperationsAreNumbered }
{}

/// A block is given out only while it is free and no reference to it stands.
pub fn blocks_are_given_out_unreferenced()
    ensures { GivenOutUnreferenced }
{}

/// No reference is dropped twice, and one that is dropped still stood.
pub fn references_are_dropped_once()
    ensures once { DroppedOnce }
    ensures stood { DroppedStood }
{}

/// An entry of a block has the event of the life of its block which holds its reference, and none where no life does.
pub fn events_are_of_their_lives()
    ensures { EventIsOfItsLife }
{}

/// A queue without last-in posts gives its entries in the order in which they were posted, and one with
/// such posts gives the others in their order.
pub fn queues_keep_order()
    ensures alone { QueueKeepsOrder }
    ensures among { FirstInKeepOrder }
{}

/// A queue gives each entry once: those taken and those left are those posted.
pub fn queues_lose_nothing()
    ensures { QueueLosesNothing }
{}

/// What is last in is the next out: a last-in post is taken before every entry but those posted last-in after it.
pub fn last_in_is_next()
    ensures { LastInIsNext }
{}

/// A queue never holds more entries than its ring and the place of its front.
pub fn queues_fit()
    ensures { QueueFits }
{}

/// Each refusal shows its numbers: a `full`, a `nil` and an assertion on a queue state its counts at a
/// place of its history, and what it held there is why it was refused; so for pools and time events.
pub fn refusals_show_their_numbers()
    ensures full { FullShows }
    ensures no_entry { NoEntryShows }
    ensures no_lifo { NoLifoShows }
    ensures nil { NilShows }
    ensures short { ShortShows }
    ensures no_block { NoBlockShows }
    ensures armed { ArmedShows }
    ensures idle { IdleShows }
{}
