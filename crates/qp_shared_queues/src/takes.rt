//! Takes of the front entry.

ghost use Rattle.std.specs.Prelude.{◌<◌, IsTrue};
ghost use Rattle.qp_model.specs.WordLaw.{is_object};
ghost use Rattle.qp_calls.specs.Clauses.{Takes};
ghost use Rattle.qp_shared_lane.specs.Lane.{state_view};
ghost use Rattle.qp_shared_queues.specs.Now.{EmptyNow};

use crate::counting::counts_in;
use crate::posts::stated;
use qp_calls::Take;
use qp_model::Rec;
use qp_shared_lane::{LaneState, put, put_nil};
use qp_shared_loops::takes::{parts, take_entry};
use std::sync::Wait;

/// Takes the front entry. Where a poster has claimed it and not yet laid it, this waits, and only reads meanwhile.
/// Where there is none, the counts are what the queue's word showed at a step of this call.
#[inline(always)]
pub fn take<R: Wait>(lane: &mut LaneState<'_>, rt: &R, me: u8) -> Take
    requires room { 0 < (state_view lane.old).spare }
    requires object { IsTrue (is_object (state_view lane.old).sys me) }
    requires serves { IsTrue ((state_view lane.old).serves me) }
    ensures takes { Takes me (state_view lane.old) (state_view lane.new) result }
    ensures now { EmptyNow me lane.old.seat.me.0 lane.new.seat.me.0 result }
{
    let ring = lane.rings.ring_of(me);
    let last = lane.log.nils[usize::from(me)];
    let (found, taken) = take_entry(rt, lane.words, &mut lane.seat, me, ring, last);
    let now = counts_in(found);
    match taken {
        Some(e) => {
            let (pool, block, name) = parts(&e);
            let rec = Rec::took(me, now.f, now.l, now.m + 1, stated(pool, block, name));
            put(&mut lane.log, &mut lane.numbers, rec, 0);
            Take::Taken(e)
        }
        None => {
            let empty = Take::Empty {
                f: now.f,
                l: now.l,
                m: now.m,
            };
            if lane.log.tells(me, now) {
                return empty;
            }
            let rec = Rec::nil(me, now.f, now.l, now.m);
            put_nil(&mut lane.log, &mut lane.numbers, rec, me, now);
            empty
        }
    }
}
