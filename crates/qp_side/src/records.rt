//! A record as its kind, its object and its numbers, which is how a seat's log has it.

ghost use Rattle.std.specs.Prelude.{◌≡◌, ◌≤◌, length};
ghost use Rattle.qp_table.specs.After.{rec_of};

use arrayvec::ArrayVec;
use qp_model::Rec;

pub(crate) fn record_of(kind: u8, object: u8, numbers: &[u64]) -> Rec
    requires { length numbers.now ≤ 13 }
    ensures { result ≡ rec_of kind object numbers.now }
{
    let mut nums = ArrayVec::new();
    let _ = nums.try_extend_from_slice(numbers);
    Rec {
        kind,
        of: object,
        nums,
    }
}
