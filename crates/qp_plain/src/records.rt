//! Records of refusals, entries as records state them, and copies of events.

ghost use Rattle.std.specs.Prelude.{◌≡◌, ◌+◌, ◌-◌, ◌*◌, ◌<◌, ◌≤◌, true};
ghost use Rattle.std.specs.Option.{unwrap_or};
ghost use Rattle.qp_model.specs.Record.{item_of};
ghost use Rattle.qp_calls.specs.Clauses.{entry_of, event_of, refusal_of, shortage_of};
ghost use Rattle.qp_plain.specs.Repeat.{FitsToken};
ghost use Rattle.qp_plain.specs.Tables.{block_place};
ghost use Rattle.qp_plain_words.specs.Queue.{is_token};

use arrayvec::ArrayVec;
use qp_base::Ev;
use qp_calls::{Counts, HeldEntry, Hold};
use qp_model::Rec;

/// The place of a block in the tables of blocks and events.
pub(crate) fn place(pool: u8, block: u8) -> usize
    requires some { 0 < pool }
    requires pools { pool ≤ 15 }
    requires blocks { block < 32 }
    ensures value { result ≡ block_place pool block }
    ensures within { result < 480 }
{
    (usize::from(pool) - 1) * 32 + usize::from(block)
}

/// The record of too few free blocks.
pub(crate) fn shortage(o: u8, pool: u8, n: u32, free: u8, reserve: Option<u8>) -> Rec
    requires { free ≤ unwrap_or reserve 0 }
    ensures { item_of result ≡ record { of = o; body = shortage_of reserve pool n free } }
{
    match reserve {
        Some(reserve) => Rec::short(o, pool, n, free, reserve),
        None => Rec::no_block(o, pool, n),
    }
}

/// The record of a post that finds too few free entries.
pub(crate) fn refusal(o: u8, to: u8, now: Counts, margin: Option<u8>) -> Rec
    ensures { item_of result ≡ record { of = o; body = refusal_of margin to now.f now.l now.m } }
{
    match margin {
        Some(margin) => Rec::full(o, to, now.f, now.l, now.m, margin),
        None => Rec::no_entry(o, to, now.f, now.l, now.m),
    }
}

/// An entry as records state it.
#[tactic(auto, unfolding(qp_calls::specs::Clauses::entry_of))]
pub(crate) fn stated(e: &HeldEntry) -> qp_model::Entry
    ensures { result ≡ entry_of e.now }
{
    match e {
        HeldEntry::Static(sig) => qp_model::Entry {
            pool: 0,
            block: u64::from(*sig),
            name: 0,
        },
        HeldEntry::Pool(h) => qp_model::Entry {
            pool: u64::from(h.pool()),
            block: u64::from(h.block()),
            name: h.name(),
        },
    }
}

/// An entry that a record states, as a queue holds it.
#[tactic(auto, unfolding(qp_calls::specs::Clauses::entry_of))]
pub(crate) fn token_of(e: qp_model::Entry) -> HeldEntry
    requires { FitsToken e }
    ensures entry { entry_of result ≡ e }
    ensures token { is_token result ≡ true }
{
    if e.pool == 0 {
        HeldEntry::Static(e.block as u16)
    } else {
        HeldEntry::Pool(Hold::of(e.pool as u8, e.block as u8, e.name))
    }
}

/// A copy of an event.
pub(crate) fn copy_of(ev: &Ev) -> Ev
    ensures { event_of result ≡ event_of ev.now }
{
    let mut pars = ArrayVec::new();
    let _ = pars.try_extend_from_slice(ev.pars.as_slice());
    Ev { sig: ev.sig, pars }
}
