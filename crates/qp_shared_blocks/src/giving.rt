//! A block is given out.

ghost use Rattle.std.specs.Prelude.{◌≡◌, ◌≤◌, ◌<◌};
ghost use Rattle.std.specs.Option.{unwrap_or};
ghost use Rattle.qp_model.specs.Record.{item_of};
ghost use Rattle.qp_model.specs.declared.words.Word.TheVariants as word;
ghost use Rattle.qp_calls.specs.Clauses.{FitsPool, GivesBlock, FewTries, draws_given, event_of, shortage_of};
ghost use Rattle.qp_shared_lane.specs.Lane.{state_view};

use qp_base::{Ev, Steps};
use qp_calls::{Fresh, Give};
use qp_model::Rec;
use qp_shared_lane::{LaneState, put};
use qp_shared_loops::gives::{free_of, give_block};
use qp_table::UNIT;
use std::sync::ledger::Ledger;

/// The record of too few free blocks.
fn shortage(o: u8, pool: u8, n: u32, free: u8, reserve: Option<u8>) -> Rec
    requires { free ≤ unwrap_or reserve 0 }
    ensures { item_of result ≡ record { of = o; body = shortage_of reserve pool n free } }
{
    match reserve {
        Some(reserve) => Rec::short(o, pool, n, free, reserve),
        None => Rec::no_block(o, pool, n),
    }
}

/// Gives out the lowest free block of a pool for the event, where more than the reserve are free, None counting as 0; beside the
/// record stands how many were. Otherwise the record is `short`, or `assert` 2 for None.
pub fn give<L: Ledger>(
    lane: &mut LaneState<'_>,
    pool: u8,
    reserve: Option<u8>,
    ev: &Ev,
    steps: &mut Steps<L>,
) -> Give
    requires room { 0 < (state_view lane.old).spare }
    requires fits { FitsPool (state_view lane.old).sys pool (event_of ev.now) }
    ensures gives { GivesBlock pool reserve (event_of ev.now) (state_view lane.old) (state_view lane.new) result }
    ensures tries { FewTries (word.Pool pool) (draws_given result)
        steps.old steps.new (state_view lane.old) (state_view lane.new) }
{
    let by = lane.by;
    let (found, given) = give_block(lane.words, &mut lane.seat, by, pool, reserve, ev, steps);
    let n = (found / UNIT) as u32;
    let free = free_of(found);
    match given {
        Some(life) => {
            let rec = Rec::new(by, pool, n, life.block, life.from, ev);
            put(&mut lane.log, &mut lane.numbers, rec, u64::from(free));
            Give::Given(Fresh::of(pool, life.block, false))
        }
        None => {
            let rec = shortage(by, pool, n, free, reserve);
            put(&mut lane.log, &mut lane.numbers, rec, 0);
            Give::Short { n, free }
        }
    }
}
