//! The kinds of journal items: the number of each, which is its id in frames.

ghost use Rattle.std.specs.Prelude.{◌≡◌, [], ◌∷◌, map};
ghost use Rattle.qp_model.specs.Kinds.{kinds};
ghost use Rattle.qp_model.specs.KindSorts.{SortsHold};

pub const QP: u8 = 1;

pub const LANE: u8 = 2;

pub const END: u8 = 3;

pub const BEGIN: u8 = 4;

pub const TOOK: u8 = 5;

pub const NIL: u8 = 6;

pub const SEEN: u8 = 7;

pub const RUN: u8 = 8;

pub const NONE: u8 = 9;

pub const EXIT: u8 = 10;

pub const ENTER: u8 = 11;

pub const INIT: u8 = 12;

pub const SAY: u8 = 13;

pub const DONE: u8 = 14;

pub const NEW: u8 = 15;

pub const SHORT: u8 = 16;

pub const INC: u8 = 17;

pub const DEC: u8 = 18;

pub const BACK: u8 = 19;

pub const POST: u8 = 20;

pub const LIFO: u8 = 21;

pub const FULL: u8 = 22;

pub const PUB: u8 = 23;

pub const LOCK: u8 = 24;

pub const UNLOCK: u8 = 25;

pub const DEFER: u8 = 26;

pub const NODEFER: u8 = 27;

pub const RECALL: u8 = 28;

pub const NORECALL: u8 = 29;

pub const FLUSH: u8 = 30;

pub const SUB: u8 = 31;

pub const UNSUB: u8 = 32;

pub const SAME: u8 = 33;

pub const ARM: u8 = 34;

pub const DISARM: u8 = 35;

pub const REARM: u8 = 36;

pub const IDLE: u8 = 37;

pub const TICK: u8 = 38;

pub const FIRE: u8 = 39;

pub const STIM: u8 = 40;

pub const SETTLE: u8 = 41;

pub const ASSERT: u8 = 42;

pub const SPENT: u8 = 43;

pub const SPILL: u8 = 44;

pub const LOOK: u8 = 45;

pub const REST: u8 = 46;

/// The constants of this module are the numbers of the table of kinds (`specs/Kinds`).
pub fn constants_are_the_table()
    ensures { QP ∷ LANE ∷ END ∷ BEGIN ∷ TOOK ∷ NIL ∷ SEEN ∷ RUN ∷ NONE ∷ EXIT ∷ ENTER ∷ INIT ∷ SAY ∷ DONE ∷ NEW ∷ SHORT ∷ INC ∷ DEC ∷ BACK ∷
        POST ∷ LIFO ∷ FULL ∷ PUB ∷ LOCK ∷ UNLOCK ∷ DEFER ∷ NODEFER ∷ RECALL ∷ NORECALL ∷ FLUSH ∷ SUB ∷ UNSUB ∷ SAME ∷ ARM ∷ DISARM ∷ REARM ∷
        IDLE ∷ TICK ∷ FIRE ∷ STIM ∷ SETTLE ∷ ASSERT ∷ SPENT ∷ SPILL ∷ LOOK ∷ REST ∷ [] ≡ map (λ k. k.id) kinds }
{}

/// What a record says is of its kind's sort: notes draw no number and show none.
pub fn records_are_of_their_sort()
    ensures { SortsHold }
{}
