//! Records read: ends, and looks of the kernel.

ghost use Rattle.std.specs.Prelude.{◌≡◌, ◌≤◌, length};
ghost use Rattle.qp_model.specs.Record.{body_at};

use crate::bodies::Body;
use crate::kinds;

/// Ends, and looks of the kernel.
#[tactic(auto, unfolding(crate::specs::Record::body_at))]
pub(crate) fn of_end(kind: u8, nums: &[u64]) -> Body
    requires least { 42 ≤ kind }
    requires most { kind ≤ 46 }
    requires fits { length nums.now ≤ 13 }
    ensures { result ≡ body_at kind nums.now }
{
    match kind {
        kinds::ASSERT => of_assert(nums),
        kinds::SPENT => match *nums {
            [] => Body::Spent,
            _ => Body::Malformed
        },
        kinds::SPILL => match *nums {
            [len] => Body::Spill { len },
            _ => Body::Malformed
        },
        kinds::LOOK => match *nums {
            [k, floor] => Body::Look { k, floor },
            _ => Body::Malformed
        },
        _ => match *nums {
            [k] => Body::Rest { k },
            _ => Body::Malformed
        },
    }
}

/// An assertion by its code.
#[tactic(auto, unfolding(crate::specs::Record::body_at))]
fn of_assert(nums: &[u64]) -> Body
    ensures { result ≡ body_at 42 nums.now }
{
    match *nums {
        [1, a, f, l, m] => Body::NoEntry { a, f, l, m },
        [2, p, n, free] => Body::NoBlock { p, n, free },
        [3, t, n, counter] => Body::Armed { t, n, counter },
        [4, t, ticks, interval] => Body::BadTicks { t, ticks, interval },
        [5, a, f, l, m] => Body::NoLifo { a, f, l, m },
        _ => Body::Malformed,
    }
}
