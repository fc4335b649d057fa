//! What a record says, by its kind first: the numbers of a record of another kind are not read.

ghost use Rattle.std.specs.Prelude.{◌≡◌, ◌||◌};
ghost use Rattle.qp_model.specs.Ends.{is_assert, is_spent, is_spill};
ghost use Rattle.qp_model.specs.Knowing.{ceiling_after};
ghost use Rattle.qp_model.specs.Record.{body_of};
ghost use Rattle.qp_model.specs.TellingKinds.{KindsTell};

use crate::{Body, Rec, kinds};

/// What a record says is of its kind.
pub fn kinds_tell()
    ensures { KindsTell }
{}

/// Whether the record is an assertion.
pub fn is_assert(r: &Rec) -> bool
    ensures { result ≡ is_assert (body_of r.now) }
{
    r.kind == kinds::ASSERT && is_asserted(&r.body())
}

/// Whether a record that says so is an assertion.
pub fn is_asserted(body: &Body) -> bool
    ensures { result ≡ is_assert body.now }
{
    matches!(
        body,
        Body::NoEntry { .. }
            | Body::NoBlock { .. }
            | Body::Armed { .. }
            | Body::BadTicks { .. }
            | Body::NoLifo { .. }
    )
}

/// Whether the record tells that an object is at its budget.
pub fn is_spent(r: &Rec) -> bool
    ensures { result ≡ is_spent (body_of r.now) }
{
    r.kind == kinds::SPENT && matches!(r.body(), Body::Spent)
}

/// Whether the record tells that its lane has no room.
pub fn is_spill(r: &Rec) -> bool
    ensures { result ≡ is_spill (body_of r.now) }
{
    r.kind == kinds::SPILL && matches!(r.body(), Body::Spill { .. })
}

/// The ceiling after the record, where this one stood before it in its lane.
pub fn ceiling_after(ceiling: u64, r: &Rec) -> u64
    ensures { result ≡ ceiling_after ceiling (body_of r.now) }
{
    if r.kind == kinds::LOCK {
        return ceiling_by(ceiling, &r.body());
    }
    if r.kind == kinds::UNLOCK {
        return ceiling_by(ceiling, &r.body());
    }
    ceiling
}

fn ceiling_by(ceiling: u64, body: &Body) -> u64
    ensures { result ≡ ceiling_after ceiling body.now }
{
    match body {
        Body::Lock { ceiling } | Body::Unlock { ceiling } => *ceiling,
        _ => ceiling,
    }
}
