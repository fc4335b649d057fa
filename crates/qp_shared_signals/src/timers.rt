//! Time events. Each call makes at most one try more than others made operations on the time event's word in it.

ghost use Rattle.std.specs.Prelude.{◌≡◌, ◌<◌, IsTrue};
ghost use Rattle.qp_model.specs.WordLaw.{is_timer};
ghost use Rattle.qp_model.specs.declared.words.Word.TheVariants as word;
ghost use Rattle.qp_calls.specs.Clauses.{CallArms, CallDisarms, Owns, CallRearms, AnswersTick, FewTries, draws_armed, draws_disarmed, draws_ticked};
ghost use Rattle.qp_shared_lane.specs.Lane.{state_view};

use qp_base::Steps;
use qp_calls::{Arm, Tick};
use qp_model::kinds;
use qp_shared_lane::{LaneState, put};
use std::sync::ledger::Ledger;

/// Arms a timer of the object set by `by`. `Armed` exactly where its counter isn't 0.
pub fn arm<L: Ledger>(
    lane: &mut LaneState<'_>,
    t: u8,
    ticks: u16,
    interval: u16,
    steps: &mut Steps<L>,
) -> Arm
    requires room { 0 < (state_view lane.old).spare }
    requires some { 0 < ticks }
    requires owns { Owns (state_view lane.old) t }
    ensures arms { CallArms t ticks interval (state_view lane.old) (state_view lane.new) result }
    ensures tries { FewTries (word.Timer t) (draws_armed result) steps.old steps.new (state_view lane.old) (state_view lane.new) }
{
    let rec = lane.side.arm(lane.by, t, ticks, interval, steps);
    if rec.kind == kinds::ARM {
        put(&mut lane.log, &mut lane.numbers, rec, 0);
        return Arm::Done;
    }
    let (n, c) = (rec.nums[2] as u32, rec.nums[3] as u16);
    put(&mut lane.log, &mut lane.numbers, rec, 0);
    Arm::Armed { n, c }
}

/// Disarms a timer of the object set by `by`, and answers the former counter.
pub fn disarm<L: Ledger>(lane: &mut LaneState<'_>, t: u8, steps: &mut Steps<L>) -> u16
    requires room { 0 < (state_view lane.old).spare }
    requires owns { Owns (state_view lane.old) t }
    ensures disarms { CallDisarms t (state_view lane.old) (state_view lane.new) result }
    ensures tries { FewTries (word.Timer t) (draws_disarmed result) steps.old steps.new (state_view lane.old) (state_view lane.new) }
{
    let rec = lane.side.disarm(lane.by, t, steps);
    if rec.kind != kinds::DISARM {
        put(&mut lane.log, &mut lane.numbers, rec, 0);
        return 0;
    }
    let former = rec.nums[2] as u16;
    put(&mut lane.log, &mut lane.numbers, rec, 0);
    former
}

/// Sets the counter of a timer of the object set by `by`, and answers the former one. The interval stays.
pub fn rearm<L: Ledger>(lane: &mut LaneState<'_>, t: u8, ticks: u16, steps: &mut Steps<L>) -> u16
    requires room { 0 < (state_view lane.old).spare }
    requires some { 0 < ticks }
    requires owns { Owns (state_view lane.old) t }
    ensures rearms { CallRearms t ticks (state_view lane.old) (state_view lane.new) result }
    ensures tries { FewTries (word.Timer t) 1 steps.old steps.new (state_view lane.old) (state_view lane.new) }
{
    let rec = lane.side.rearm(lane.by, t, ticks, steps);
    let former = rec.nums[2] as u16;
    put(&mut lane.log, &mut lane.numbers, rec, 0);
    former
}

/// What a tick did, by the kind of its record.
fn tick_by(kind: u8) -> Tick
    ensures idle { kind ≡ 37 → result ≡ Tick.Idle }
    ensures fired { kind ≡ 39 → result ≡ Tick.Fired }
    ensures down { kind ≡ 38 → result ≡ Tick.Down }
{
    match kind {
        kinds::IDLE => Tick::Idle,
        kinds::FIRE => Tick::Fired,
        _ => Tick::Down,
    }
}

/// A tick of a timer. It posts nothing.
pub fn tick_one<L: Ledger>(lane: &mut LaneState<'_>, t: u8, steps: &mut Steps<L>) -> Tick
    requires room { 0 < (state_view lane.old).spare }
    requires timer { IsTrue (is_timer (state_view lane.old).sys t) }
    ensures ticks { AnswersTick t (state_view lane.old) (state_view lane.new) result }
    ensures tries { FewTries (word.Timer t) (draws_ticked result) steps.old steps.new (state_view lane.old) (state_view lane.new) }
{
    let rec = lane.side.tick_one(lane.by, t, steps);
    let answer = tick_by(rec.kind);
    put(&mut lane.log, &mut lane.numbers, rec, 0);
    answer
}
