//! The definitions of a lawful journal, by the numbers that a verdict names.

ghost use Rattle.std.specs.Prelude.{◌≡◌, [], ◌∷◌};
ghost use Rattle.qp_model.specs.Definitions.{definitions};

/// An object's records follow its chart.
pub const COURSE: u8 = 7;

/// The numbers drawn on a word are 0, 1 and so on, and in no lane do its marks fall.
pub const DRAWN_NUMBERS: u8 = 9;

/// A block is given out only while it is free.
pub const FREE_BLOCKS: u8 = 10;

/// A reference is dropped only while it stands.
pub const REFERENCES: u8 = 11;

/// A block has its references within its lives.
pub const LIVES: u8 = 12;

/// A queue gives what was posted to it, in its order, and holds no more than it has room for.
pub const LINE: u8 = 13;

/// What is shown of a word is what its operations left.
pub const SHOWN_NUMBERS: u8 = 14;

/// An object's records are those of calls, starts and steps.
pub const SHAPES: u8 = 15;

/// A signal's subscribers are those that subscribed.
pub const SUBSCRIBERS: u8 = 16;

/// An object's deferred list gives what was deferred, in its order.
pub const DEFERRAL: u8 = 17;

/// A time event counts down as its ticks say.
pub const TIME_EVENTS: u8 = 18;

/// Lane 0 is that of its kernel.
pub const KERNEL_LANE: u8 = 19;

/// Each source's lane is its stimuli, there are no lanes more, and a run with one thread has one order.
pub const SOURCES: u8 = 20;

/// The end that is stated is that of the lanes.
pub const END: u8 = 21;

/// The constants of this module are the numbers of `specs/Definitions`, here in their order.
pub fn constants_are_the_table()
    ensures { COURSE ∷ DRAWN_NUMBERS ∷ FREE_BLOCKS ∷ REFERENCES ∷ LIVES ∷ LINE ∷ SHOWN_NUMBERS ∷ SHAPES ∷ SUBSCRIBERS ∷ DEFERRAL ∷
        TIME_EVENTS ∷ KERNEL_LANE ∷ SOURCES ∷ END ∷ [] ≡ definitions }
{}
