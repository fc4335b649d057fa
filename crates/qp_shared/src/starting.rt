//! The root becomes lanes.

ghost use Rattle.std.specs.Prelude.{◌≡◌, ◌+◌, ◌<◌, ◌≤◌, [], map, length, IfOk};
ghost use Rattle.std.specs.List.{list_any};
ghost use Rattle.std.specs.Vec.{vec_capacity};
ghost use Rattle.qp_model.specs.Sound.{IsSound};
ghost use Rattle.qp_table.specs.Counting.{Each};
ghost use Rattle.qp_table.specs.Rule.{is_serve};
ghost use Rattle.qp_table.specs.After.{passing, failing};
ghost use Rattle.qp_side.specs.Seats.{in_set};
ghost use Rattle.qp_shared.specs.Lane.{lane_view};
ghost use Rattle.qp_shared.specs.Starting.{AreFirst, AreFirstViews, AreGiven, FirstLane, HasLeft, IsBareLog, IsGiven, IsRootAt, IsRootOf, objects_for, rest_of, serves_all, serves_one};

use crate::lane::SharedLane;
use crate::shared::{Root, Shared};
use atomic_table::Seat;
use qp_base::Memory;
use qp_calls_log::Log;
use qp_shared_ends::{side, table};
use qp_shared_lane::{Ends, LaneState, Rings, SideSeat};
use qp_side::SideView;
use qp_side::words::give_seat;
use qp_table::{Numbers, View};
use std::alloc::Global;

/// Logs without records.
fn new_logs(alloc: Global, n: u32) -> Result<Vec<Log>, Memory>
    ensures count { IfOk result (λ v. length v.items ≡ n) }
    ensures bare { IfOk result (λ v. Each IsBareLog v.items) }
{
    let mut logs = Vec::new(alloc);
    for at in 0..n {
        let log = Log::new(alloc)?;
        logs.push(log).map_err(|_| Memory)?;
    }
    Ok(logs)
}

impl Shared<'_> {
    /// The lane with these seats, where nothing has happened.
    fn seated<'a>(
        &'a self,
        seat: Seat<(), View>,
        side: Seat<(), SideView>,
        _number: u64,
        count: u8,
        log: Log,
    ) -> SharedLane<'a>
        requires own { seat.table_id ≡ self.now.words.shared.table_id }
        requires beside { (side.table_id ≡ self.now.side.shared.table_id) × (side.me.1 ≡ []) }
        requires sound { IsSound self.now.sys.now }
        requires views { AreFirstViews _number count seat.me.0 side.me.0 }
        requires bare { IsBareLog log }
        ensures { IsGiven self.now _number count (λ o. list_any (is_serve o) seat.me.0.serves) (lane_view result) }
    {
        SharedLane {
            state: LaneState {
                sys: self.sys,
                rings: Rings::of(self.sys),
                words: &self.words,
                seat,
                side: SideSeat {
                    words: &self.side,
                    seat: side,
                },
                ends: Ends::none(),
                by: 0,
                count,
                ceiling: 0,
                log,
                numbers: Numbers::new(),
            },
        }
    }

    /// The root gives out a lane, which serves these objects, bit `o - 1` for object `o`.
    fn give<'a>(
        &'a self,
        root: &mut Root,
        number: u64,
        count: u8,
        objects: u32,
        log: Log,
    ) -> SharedLane<'a>
        requires root { IsRootAt self.now number root.old }
        requires some { 0 < number }
        requires few { number < 49 }
        requires sound { IsSound self.now.sys.now }
        requires bare { IsBareLog log }
        ensures root { IsRootAt self.now (number + 1) root.new }
        ensures left { root.new.seat.me.0.serves ≡ failing (in_set objects) root.old.seat.me.0.serves }
        ensures lane { IsGiven self.now number count (λ o. list_any (is_serve o) (passing (in_set objects) root.old.seat.me.0.serves)) (lane_view result) }
    {
        let seat = table::give_lane(&self.words, &mut root.seat, number, objects);
        let beside = give_seat(&self.side, &mut root.side, number, objects);
        self.seated(seat, beside, number, count, log)
    }

    /// The root becomes lane 0, when all others were given out.
    fn keep<'a>(&'a self, root: Root, count: u8, log: Log) -> SharedLane<'a>
        requires root { IsRootAt self.now count root }
        requires few { count ≤ 49 }
        requires sound { IsSound self.now.sys.now }
        requires bare { IsBareLog log }
        ensures { IsGiven self.now 0 count (λ o. list_any (is_serve o) root.seat.me.0.serves) (lane_view result) }
    {
        let Root {
            seat,
            side: mut beside,
        } = root;
        side::become_lane(&self.side, &mut beside, 0);
        self.seated(seat, beside, 0, count, log)
    }

    /// The objects that lane k gets, as bits: in a port the k-th one, else none.
    fn objects_for(&self, port: bool, k: usize) -> u32
        requires some { 0 < k }
        requires sound { IsSound self.now.sys.now }
        ensures { result ≡ objects_for self.now.sys.now port k }
    {
        if !port {
            return 0;
        }
        let sys = self.sys;
        match sys.objects.items.get(k - 1) {
            Some(object) => 1 << (object.priority - 1),
            None => 0,
        }
    }

    /// The root gives out a lane for each log, from number 1 on.
    fn hand_out<'a>(
        &'a self,
        root: &mut Root,
        count: u8,
        port: bool,
        logs: Vec<Log>,
        room: Vec<SharedLane<'a>>,
    ) -> Vec<SharedLane<'a>>
        requires root { HasLeft self.now port 1 root.old }
        requires few { length logs.items < 49 }
        requires sound { IsSound self.now.sys.now }
        requires bare { Each IsBareLog logs.items }
        requires empty { room.items ≡ [] }
        requires room { length logs.items < vec_capacity room }
        ensures root { HasLeft self.now port (length logs.items + 1) root.new }
        ensures count { length result.items ≡ length logs.items }
        ensures lanes { AreGiven self.now count port (map lane_view result.items) }
        ensures room { length result.items < vec_capacity result }
    {
        let mut lanes = room;
        for log in logs {
            let number = lanes.len() + 1;
            let objects = self.objects_for(port, number);
            let lane = self.give(root, number as u64, count, objects, log);
            lanes.push_reserved(lane);
        }
        lanes
    }

    /// So many lanes in the order of their numbers; those of a port serve one object each.
    fn all_lanes<'a>(
        &'a self,
        root: Root,
        n: u32,
        port: bool,
    ) -> Result<Vec<SharedLane<'a>>, Memory>
        requires root { IsRootOf self.now root }
        requires some { 0 < n }
        requires few { n ≤ 49 }
        ensures count { IfOk result (λ v. length v.items ≡ n) }
        ensures zero { IfOk result (λ v. FirstLane self.now n port (map lane_view v.items)) }
        ensures others { IfOk result (λ v. AreGiven self.now n port (rest_of (map lane_view v.items))) }
    {
        let mut root = root;
        let Ok(room) = Vec::with_capacity(self.alloc, n as usize) else {
            return Err(Memory);
        };
        let log = Log::new(self.alloc)?;
        let logs = new_logs(self.alloc, n - 1)?;
        let mut lanes = self.hand_out(&mut root, n as u8, port, logs, room);
        let first = self.keep(root, n as u8, log);
        let Ok(()) = lanes.insert(0, first) else {
            return Err(Memory);
        };
        Ok(lanes)
    }

    /// The root becomes so many lanes, in the order of their numbers, of which lane 0 serves all objects.
    pub fn lanes<'a>(&'a self, root: Root, n: u32) -> Result<Vec<SharedLane<'a>>, Memory>
        requires root { IsRootOf self.now root }
        requires some { 0 < n }
        requires few { n ≤ 49 }
        ensures { IfOk result (λ v. AreFirst self.now n (serves_all self.now.sys.now) (map lane_view v.items)) }
    {
        self.all_lanes(root, n, false)
    }

    /// The root becomes so many lanes, of which lane i serves the i-th object in ascending priority, and lane 0 none.
    pub fn port_lanes<'a>(&'a self, root: Root, n: u32) -> Result<Vec<SharedLane<'a>>, Memory>
        requires root { IsRootOf self.now root }
        requires some { length self.now.sys.now.objects < n }
        requires few { n ≤ 49 }
        ensures { IfOk result (λ v. AreFirst self.now n (serves_one self.now.sys.now) (map lane_view v.items)) }
    {
        self.all_lanes(root, n, true)
    }
}
