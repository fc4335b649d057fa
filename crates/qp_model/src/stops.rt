//! The codes with which a lane stops: that of the assertion which is its last record, or why it has no further one.

ghost use Rattle.std.specs.Prelude.{◌≡◌, [], ◌∷◌};
ghost use Rattle.qp_model.specs.Stops.{armed, bad_ticks, memory, no_block, no_entry, no_lifo, spent_or_full};

/// A queue is too full for a post without a margin.
pub const NO_ENTRY: u8 = 1;

/// A pool has no block for the event.
pub const NO_BLOCK: u8 = 2;

/// A time event is armed already.
pub const ARMED: u8 = 3;

/// A time event's values are out of range.
pub const BAD_TICKS: u8 = 4;

/// A last-in post finds no room.
pub const NO_LIFO: u8 = 5;

/// An object has taken its budget, or the lane is full.
pub const SPENT: u8 = 6;

/// Memory was refused.
pub const MEMORY: u8 = 7;

/// The constants of this module are the codes of `specs/Stops`.
pub fn constants_are_the_table()
    ensures assertions { NO_ENTRY ∷ NO_BLOCK ∷ ARMED ∷ BAD_TICKS ∷ NO_LIFO ∷ [] ≡ no_entry ∷ no_block ∷ armed ∷ bad_ticks ∷ no_lifo ∷ [] }
    ensures others { SPENT ∷ MEMORY ∷ [] ≡ spent_or_full ∷ memory ∷ [] }
{}
