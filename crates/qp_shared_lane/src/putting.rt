//! A record more in a log, with the number beside it.

ghost use Rattle.std.specs.Prelude.{◌≡◌, ◌+◌, ◌<◌, true, false};
ghost use Rattle.qp_model.specs.Record.{item_of};
ghost use Rattle.qp_model.specs.declared.bodies.Body.TheVariants.{Nil};
ghost use Rattle.qp_model.specs.Ends.{is_spill};
ghost use Rattle.qp_calls_log.specs.Lane.{is_plain};
ghost use Rattle.qp_shared_lane.specs.More.{IsPut};

use qp_calls::Counts;
use qp_calls_log::Log;
use qp_model::Rec;
use qp_table::Numbers;

/// Adds a record that is neither a `nil` nor a `spill`, and the number beside it.
#[inline(always)]
pub fn put(log: &mut Log, numbers: &mut Numbers, rec: Rec, number: u64)
    requires room { 0 < log.old.spare }
    requires plain { is_plain (item_of rec).body ≡ true }
    ensures put { IsPut rec number log.old numbers.old.list log.new numbers.new.list }
    ensures spare { log.new.spare + 1 ≡ log.old.spare }
{
    log.add(rec);
    *numbers = Numbers::with(numbers, &number);
}

/// Adds the `nil` of a queue, beside which no number counts.
pub fn put_nil(log: &mut Log, numbers: &mut Numbers, rec: Rec, me: u8, now: Counts)
    requires room { 0 < log.old.spare }
    requires nil { item_of rec ≡ record { of = me; body = Nil now.f now.l now.m } }
    requires queue { me < 33 }
    ensures put { IsPut rec 0 log.old numbers.old.list log.new numbers.new.list }
    ensures spare { log.new.spare + 1 ≡ log.old.spare }
{
    log.add_nil(rec, me, now);
    *numbers = Numbers::with(numbers, &0);
}

/// Adds the `spill`, for which the place was kept, and beside which no number counts.
pub fn put_spill(log: &mut Log, numbers: &mut Numbers, rec: Rec)
    requires spill { is_spill (item_of rec).body ≡ true }
    requires first { log.old.spilled ≡ false }
    ensures put { IsPut rec 0 log.old numbers.old.list log.new numbers.new.list }
    ensures spare { log.new.spare ≡ log.old.spare }
{
    log.add_spill(rec);
    *numbers = Numbers::with(numbers, &0);
}
