//! The look that found a queue empty.

ghost use Rattle.std.specs.Prelude.{◌≡◌, ◌+◌, ◌==◌};
ghost use Rattle.qp_model.specs.History.{lane_items};
ghost use Rattle.qp_model.specs.Record.{item_of};
ghost use Rattle.qp_wait.specs.Parked.{is_empty_look};
ghost use Rattle.qp_wait.specs.Looking.{IsLastLookAt};

use qp_model::{Body, Rec};

/// Whether these counts are those of an empty queue.
fn are_empty(f: u64, l: u64, m: u64) -> bool
    ensures { result ≡ (f + l == m) }
{
    match f.checked_add(l) {
        Some(sum) => sum == m,
        None => false,
    }
}

/// Whether it is a look that found the queue of object `me` empty.
#[tactic(auto, unfolding(qp_model::specs::Record::item_of))]
fn is_empty_look(rec: &Rec, me: u8) -> bool
    ensures { result ≡ is_empty_look me (item_of rec.now).of (item_of rec.now).body }
{
    match rec.body() {
        Body::Nil { f, l, m } => rec.of == me && are_empty(f, l, m),
        Body::Seen { p, f, l, m } => p == u64::from(me) && are_empty(f, l, m),
        _ => false,
    }
}

/// The place of the last look that found the queue of object `me` empty.
pub(crate) fn last_look(records: &[Rec], me: u8) -> Option<usize>
    ensures { IsLastLookAt me (lane_items records.now) result }
{
    let Some((last, front)) = records.split_last() else {
        return None;
    };
    if is_empty_look(last, me) {
        return Some(front.len());
    }
    last_look(front, me)
}
