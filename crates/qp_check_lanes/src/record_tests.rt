//! What a record is, by the word at its head.
#![tactic(auto, unfolding(qp_model::specs::Record::item_of))]

ghost use Rattle.std.specs.Prelude.{◌≡◌, ◌+◌, nat_lt};
ghost use Rattle.qp_model.specs.Record.{item_of};
ghost use Rattle.qp_model.specs.Ends.{is_assert as asserts, is_spill as spills, is_spent as spends, is_end as ends};
ghost use Rattle.qp_model.specs.Lawful.{is_settle as settles};

use qp_model::{Body, Rec};

/// Whether the record is an assertion.
pub fn is_assert(r: &Rec) -> bool
    ensures { result ≡ asserts (item_of r.now).body }
{
    qp_model::is_assert(r)
}

/// Whether the record tells that an object is at its budget.
pub fn is_spent(r: &Rec) -> bool
    ensures { result ≡ spends (item_of r.now).body }
{
    qp_model::is_spent(r)
}

/// Whether the record tells that its lane has no room.
pub fn is_spill(r: &Rec) -> bool
    ensures { result ≡ spills (item_of r.now).body }
{
    qp_model::is_spill(r)
}

pub fn is_settle(r: &Rec) -> bool
    ensures { result ≡ settles (item_of r.now).body }
{
    matches!(r.body(), Body::Settle)
}

/// Whether the record ends its lane.
pub fn is_end(r: &Rec) -> bool
    ensures { result ≡ ends (item_of r.now).body }
{
    is_assert(r) || is_spent(r) || is_spill(r)
}

/// Whether the counts of a queue show an entry, for sums of any size.
pub fn shows_entry(f: u64, l: u64, m: u64) -> bool
    ensures { result ≡ nat_lt m (f + l) }
{
    f > m || m - f < l
}
