//! How far a journal has been read, item by item.

ghost use Rattle.std.specs.Prelude.{◌≡◌, ◌≤◌, length};
ghost use Rattle.qp_model.specs.Output.{item};
ghost use Rattle.qp_text.specs.Faults.{LineBecomes};
ghost use Rattle.qp_text.specs.Progress.{add_record, nothing_read, begin_reading, close, closed, open_lane, take_item};
ghost use Rattle.qp_text.specs.ReadText.{take_line};

use crate::code;
use crate::faults::LineFault;
use crate::items::{form_of, read_line};
use arrayvec::ArrayVec;
use qp_model::{Lane, Lanes, Rec, kinds};
use std::alloc::Global;

/// How far a journal has been read, from text or from frames: whether it has begun, the first item's numbers, the lanes
/// that are done, the lane that is being read, and the status of the last item.
#[derive(Drop)]
pub struct Reading {
    pub begun: bool,
    pub form: u8,
    pub kernel: u8,
    pub budget: u32,
    pub lanes: Lanes,
    pub lane: Option<Lane>,
    pub end: Option<u8>,
}

impl Reading {
    /// Nothing has been read.
    pub fn new(alloc: Global) -> Reading
        ensures { result ≡ nothing_read }
    {
        Reading {
            begun: false,
            form: 0,
            kernel: 0,
            budget: 0,
            lanes: Lanes {
                items: Vec::new(alloc),
            },
            lane: None,
            end: None,
        }
    }

    /// Takes one more line.
    pub(crate) fn take_line(&mut self, alloc: Global, line: &[u8]) -> Result<(), LineFault>
        ensures { LineBecomes result self.new (take_line self.old line.now) }
    {
        let form = if self.begun { self.form } else { form_of(line) };
        let item = read_line(alloc, form, line)?;
        self.take_item(alloc, form, item.id, item.nums.items.as_slice())
    }

    /// Takes one more item in this form, with as many numbers as its word has. The codes are: 3 a wrong count of numbers,
    /// 4 an item that isn't allowed there, 6 a number out of range. Behind a fault the reading isn't used.
    pub fn take_item(
        &mut self,
        alloc: Global,
        form: u8,
        id: u8,
        nums: &[u64],
    ) -> Result<(), LineFault>
        requires { length nums.now ≤ 14 }
        ensures { LineBecomes result self.new (take_item form self.old (item id nums.now)) }
    {
        match id {
            _ if self.begun && self.end.is_some() => Err(LineFault::Code(code::PLACE)),
            kinds::QP if self.begun => Err(LineFault::Code(code::PLACE)),
            kinds::QP => self.begin(form, nums),
            _ if !self.begun => Err(LineFault::Code(code::PLACE)),
            kinds::LANE => self.open_lane(alloc, nums),
            kinds::END => self.close(nums),
            id => self.add_record(id, nums),
        }
    }

    /// Takes the first line.
    fn begin(&mut self, form: u8, nums: &[u64]) -> Result<(), LineFault>
        ensures { LineBecomes result self.new (begin_reading self.old form nums.now) }
    {
        let [stated, kernel, budget] = nums else {
            return Err(LineFault::Code(code::COUNT));
        };
        let last = if form == 2 { 3 } else { 2 };
        if *stated != u64::from(form) || *kernel > last || *budget < 1 || *budget > 1000000 {
            return Err(LineFault::Code(code::RANGE));
        }
        self.begun = true;
        self.form = form;
        self.kernel = *kernel as u8;
        self.budget = *budget as u32;
        Ok(())
    }

    /// Takes the head of a lane.
    fn open_lane(&mut self, alloc: Global, nums: &[u64]) -> Result<(), LineFault>
        ensures { LineBecomes result self.new (open_lane self.old nums.now) }
    {
        let [number] = nums else {
            return Err(LineFault::Code(code::COUNT));
        };
        self.close_lane()?;
        if *number != self.lanes.items.len() as u64 {
            return Err(LineFault::Code(code::PLACE));
        }
        if *number > 48 {
            return Err(LineFault::Code(code::RANGE));
        }
        self.lane = Some(Lane {
            items: Vec::new(alloc),
        });
        Ok(())
    }

    /// Takes the last line.
    fn close(&mut self, nums: &[u64]) -> Result<(), LineFault>
        ensures { LineBecomes result self.new (close self.old nums.now) }
    {
        let [status] = nums else {
            return Err(LineFault::Code(code::COUNT));
        };
        if *status != 0 && *status != 3 && *status != 4 {
            return Err(LineFault::Code(code::RANGE));
        }
        self.close_lane()?;
        self.end = Some(*status as u8);
        Ok(())
    }

    /// Puts the lane that is being read, if there is one, behind those that are done.
    fn close_lane(&mut self) -> Result<(), LineFault>
        ensures { LineBecomes result self.new (closed self.old) }
    {
        if let Some(lane) = self.lane.take() {
            if self.lanes.items.push(lane).is_err() {
                return Err(LineFault::Memory);
            }
        }
        Ok(())
    }

    /// Takes a record.
    fn add_record(&mut self, id: u8, nums: &[u64]) -> Result<(), LineFault>
        requires { length nums.now ≤ 14 }
        ensures { LineBecomes result self.new (add_record self.old id nums.now self.old.lane) }
    {
        let Some(mut lane) = self.lane.take() else {
            return Err(LineFault::Code(code::PLACE));
        };
        let [o, rest @ ..] = nums else {
            return Err(LineFault::Code(code::COUNT));
        };
        if *o > 32 || lane.items.len() >= 1000001 {
            return Err(LineFault::Code(code::RANGE));
        }
        let r = Rec {
            kind: id,
            of: *o as u8,
            nums: numbers_of(rest),
        };
        if lane.items.push(r).is_err() {
            return Err(LineFault::Memory);
        }
        self.lane = Some(lane);
        Ok(())
    }
}

/// The numbers of a record.
fn numbers_of(nums: &[u64]) -> ArrayVec<u64, 13>
    requires { length nums.now ≤ 13 }
    ensures { result.items ≡ nums.now }
{
    let mut all = ArrayVec::new();
    let _ = all.try_extend_from_slice(nums);
    all
}
