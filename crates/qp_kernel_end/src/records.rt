//! The records that end a lane.

ghost use Rattle.std.specs.Prelude.{◌≡◌};
ghost use Rattle.qp_kernel_end.specs.Outcome.{asserts, code_of, runs_out};
ghost use Rattle.qp_kernel_end.specs.LastRecords.{last_rec_code, last_rec_is};

use qp_model::{Body, Lane, Rec};

/// The code of an assertion; 0 for another record.
fn code_of(body: &Body) -> u8
    ensures { result ≡ code_of body.now }
{
    match body {
        Body::NoEntry { .. } => 1,
        Body::NoBlock { .. } => 2,
        Body::Armed { .. } => 3,
        Body::BadTicks { .. } => 4,
        Body::NoLifo { .. } => 5,
        _ => 0,
    }
}

#[tactic(auto, unfolding(crate::specs::Outcome::asserts))]
fn asserts(r: &Rec) -> bool
    ensures { result ≡ asserts r.now }
{
    qp_model::is_assert(r)
}

#[tactic(auto, unfolding(crate::specs::Outcome::runs_out))]
fn runs_out(r: &Rec) -> bool
    ensures { result ≡ runs_out r.now }
{
    qp_model::is_spent(r) || qp_model::is_spill(r)
}

/// Whether the lane's last record is an assertion.
pub fn ends_asserted(lane: &Lane) -> bool
    ensures { result ≡ last_rec_is asserts lane.now }
{
    match lane.items.last() {
        Some(r) => asserts(r),
        None => false,
    }
}

/// Whether the lane's last record is a `spent` or a `spill`.
pub fn ends_spent(lane: &Lane) -> bool
    ensures { result ≡ last_rec_is runs_out lane.now }
{
    match lane.items.last() {
        Some(r) => runs_out(r),
        None => false,
    }
}

/// The code of the lane's last record.
#[tactic(auto, unfolding(crate::specs::LastRecords::last_rec_code))]
pub fn last_code(lane: &Lane) -> u8
    ensures { result ≡ last_rec_code lane.now }
{
    match lane.items.last() {
        Some(r) => code_of(&r.body()),
        None => 0,
    }
}
