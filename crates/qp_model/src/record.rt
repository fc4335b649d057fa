//! Records: the items of a lane.

ghost use Rattle.std.specs.Prelude.{◌≡◌, ◌+◌, ◌++◌, ◌≤◌, length};

use arrayvec::ArrayVec;

/// A record: its kind, the object for which the lane works (0 for none), and the numbers after it.
#[derive(Drop)]
pub struct Rec {
    pub kind: u8,
    pub of: u8,
    pub nums: ArrayVec<u64, 13>,
}

/// These numbers, as a record holds them.
#[inline(always)]
pub(crate) fn numbers(xs: &[u64]) -> ArrayVec<u64, 13>
    requires { length xs.now ≤ 13 }
    ensures { result.items ≡ xs.now }
{
    let mut nums = ArrayVec::new();
    for x in xs {
        nums.push(*x);
    }
    nums
}

/// Adds these numbers one by one: by a slice they went through copies on the stack.
pub(crate) fn add_numbers(nums: &mut ArrayVec<u64, 13>, xs: &[u64])
    requires { length nums.old.items + length xs.now ≤ 13 }
    ensures { nums.new.items ≡ nums.old.items ++ xs.now }
{
    for x in xs {
        nums.push(*x);
    }
}
