//! The state of one lane.

ghost use Rattle.std.specs.Prelude.{◌≡◌};
ghost use Rattle.qp_shared_lane.specs.Used.{HasEnds};
ghost use Rattle.qp_shared_lane.specs.Holds.{LaneHolds, LaneHolds-prop};
ghost use Rattle.qp_table.specs.Rule.{table_words};

use crate::ends::Ends;
use crate::rings::Rings;
use atomic_table::Seat;
use qp_calls_log::Log;
use qp_model::System;
use qp_shared_words::Words;
use qp_side::SideSeat;
use qp_table::{Numbers, View};

/// The lane of one thread: the lengths of its system's rings, its seats on both tables, after how many operations the lives of its used
/// blocks ended, the object for which it adds records, how many lanes the table became, the ceiling of its last `lock` or `unlock`, its
/// log, and in proofs alone a number beside each record.
#[derive(Drop)]
pub struct LaneState<'a> {
    pub sys: &'a System,
    pub rings: Rings<'a>,
    pub words: &'a Words,
    pub seat: Seat<(), View>,
    pub side: SideSeat<'a>,
    pub ends: Ends,
    pub by: u8,
    pub count: u8,
    pub ceiling: u64,
    pub log: Log,
    pub numbers: Numbers,
    ghost own: { seat.table_id ≡ words.now.shared.table_id },
    ghost wide: { words.now.shared.table_id.words ≡ table_words },
    ghost rings_key: { rings.sys.now ≡ sys.now },
    ghost key: { words.now.shared.key ≡ sys.now },
    ghost side_key: { side.words.now.shared.key ≡ sys.now },
    ghost ended: { HasEnds ends.at seat.me.0.used },
    ghost holds: { LaneHolds sys.now count ceiling log numbers.list seat.me.0 side.seat.me.0 } by { LaneHolds-prop sys.now count ceiling log numbers.list seat.me.0 side.seat.me.0 },
}
