//! The words of journal items, and how many numbers each has.

ghost use Rattle.std.specs.Prelude.{◌≡◌, ◌≤◌, length};
ghost use Rattle.qp_model.specs.Vocabulary.{has_assert_count, has_count, word_text};

use crate::kinds;

/// How many numbers the items have, by id. `new` and `assert` have rules of their own.
static COUNTS: [u8; 47] = [
    0, 3, 1, 1, 1, 7, 4, 5, 3, 1, 2, 2, 2, 2, 1, 0, 5, 4, 5, 5, 8, 7, 6, 4, 2, 2, 4, 1, 4, 1, 4, 3,
    3, 3, 5, 4, 5, 3, 4, 4, 3, 1, 0, 1, 2, 3, 2,
];

/// The word of an item.
pub fn word_text(id: u8) -> &'static str
    requires least { 1 ≤ id }
    requires most { id ≤ 46 }
    ensures word { result.now ≡ word_text id }
    ensures short { length result.now ≤ 8 }
{
    match id {
        kinds::QP => "qp",
        kinds::LANE => "lane",
        kinds::END => "end",
        kinds::BEGIN => "begin",
        kinds::TOOK => "took",
        kinds::NIL => "nil",
        kinds::SEEN => "seen",
        kinds::RUN => "run",
        kinds::NONE => "none",
        kinds::EXIT => "exit",
        kinds::ENTER => "enter",
        kinds::INIT => "init",
        kinds::SAY => "say",
        kinds::DONE => "done",
        kinds::NEW => "new",
        kinds::SHORT => "short",
        kinds::INC => "inc",
        kinds::DEC => "dec",
        kinds::BACK => "back",
        kinds::POST => "post",
        kinds::LIFO => "lifo",
        kinds::FULL => "full",
        kinds::PUB => "pub",
        kinds::LOCK => "lock",
        kinds::UNLOCK => "unlock",
        kinds::DEFER => "defer",
        kinds::NODEFER => "nodefer",
        kinds::RECALL => "recall",
        kinds::NORECALL => "norecall",
        kinds::FLUSH => "flush",
        kinds::SUB => "sub",
        kinds::UNSUB => "unsub",
        kinds::SAME => "same",
        kinds::ARM => "arm",
        kinds::DISARM => "disarm",
        kinds::REARM => "rearm",
        kinds::IDLE => "idle",
        kinds::TICK => "tick",
        kinds::FIRE => "fire",
        kinds::STIM => "stim",
        kinds::SETTLE => "settle",
        kinds::ASSERT => "assert",
        kinds::SPENT => "spent",
        kinds::SPILL => "spill",
        kinds::LOOK => "look",
        _ => "rest",
    }
}

/// Whether an item has as many numbers as its word has.
pub fn has_count(id: u8, nums: &[u64]) -> bool
    requires { id ≤ 46 }
    ensures { result ≡ has_count id nums.now }
{
    match id {
        kinds::NEW => 6 <= nums.len() && nums.len() <= 14,
        kinds::ASSERT => has_assert_count(nums),
        _ => nums.len() == usize::from(COUNTS[id as usize]),
    }
}

/// Whether an assertion has as many numbers as its code has.
fn has_assert_count(nums: &[u64]) -> bool
    ensures { result ≡ has_assert_count nums.now }
{
    match nums {
        [_, 1 | 5, rest @ ..] => rest.len() == 4,
        [_, 2 | 3 | 4, rest @ ..] => rest.len() == 3,
        _ => false,
    }
}
