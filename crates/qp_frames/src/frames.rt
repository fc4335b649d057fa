//! The item of a frame.

ghost use Rattle.std.specs.Prelude.{◌≡◌, ◌≤◌, length, IfOk, Ok};
ghost use Rattle.qp_model.specs.Output.{last_id};
ghost use Rattle.qp_frames.specs.Faults.{FrameAnswers};
ghost use Rattle.qp_frames.specs.declared.faults.FrameFault.TheVariants.{At};
ghost use Rattle.qp_frames.specs.Stream.{form_of_bytes, item_of_body, item_of_frame, item_of_summed, with_numbers};

use crate::bytes::checksum;
use crate::code;
use crate::faults::{FrameFault, NumberFault};
use crate::numbers::{Numerals, is_whole, read_numbers};
use qp_model::{kinds, vocabulary};
use qp_text::code as line_code;
use std::alloc::Global;
use std::marker::Model;

/// The item of a frame.
#[derive(Drop)]
pub(crate) struct FrameItem {
    pub id: u8,
    pub nums: Numerals,
}

impl Model for FrameItem {
    ghost use Rattle.qp_model.specs.Output.{JournalItem};

    ghost Value = { JournalItem };

    ghost view = { λ i. record { id = i.id; nums = i.nums } };
}

/// Where a frame begins, its form, and the sequence byte that is wanted.
#[derive(Clone, Copy)]
pub(crate) struct FrameStart {
    pub start: u64,
    pub form: u8,
    pub wanted: u8,
}

impl FrameStart {
    /// A fault of the frame.
    fn fault(self, code: u8, want: u8, got: u8) -> FrameFault
        ensures { result ≡ At self.start code want got }
    {
        FrameFault::At {
            offset: self.start,
            code,
            want,
            got,
        }
    }

    /// The item of a frame by its bytes, the last of which is its checksum.
    pub fn item_of_frame(self, alloc: Global, bytes: &[u8]) -> Result<FrameItem, FrameFault>
        ensures exact { FrameAnswers result (item_of_frame self.start self.form self.wanted bytes.now) }
        ensures count { IfOk result (λ i. length i.nums ≤ 14) }
        ensures id { IfOk result (λ i. i.id ≤ 46) }
    {
        if bytes.is_empty() {
            return Err(self.fault(code::LENGTH, 0, 0));
        }
        let last = bytes.len() - 1;
        self.item_of_body(alloc, &bytes[..last], bytes[last])
    }

    /// The item of a frame by the bytes before its checksum, and the checksum that it has.
    fn item_of_body(self, alloc: Global, body: &[u8], found: u8) -> Result<FrameItem, FrameFault>
        ensures exact { FrameAnswers result (item_of_body self.start self.form self.wanted body.now found) }
        ensures count { IfOk result (λ i. length i.nums ≤ 14) }
        ensures id { IfOk result (λ i. i.id ≤ 46) }
    {
        let [sequence, id, numbers @ ..] = body else {
            return Err(self.fault(code::LENGTH, 0, 0));
        };
        if !is_whole(self.form, numbers) {
            return Err(self.fault(code::LENGTH, 0, 0));
        }
        let computed = checksum(body);
        if found != computed {
            return Err(self.fault(code::CHECKSUM, computed, found));
        }
        self.item_of_summed(alloc, *sequence, *id, numbers)
    }

    /// The item of a frame whose checksum is right.
    fn item_of_summed(
        self,
        alloc: Global,
        sequence: u8,
        id: u8,
        numbers: &[u8],
    ) -> Result<FrameItem, FrameFault>
        ensures exact { FrameAnswers result (item_of_summed self.start self.form self.wanted sequence id numbers.now) }
        ensures count { IfOk result (λ i. length i.nums ≤ 14) }
        ensures id { IfOk result (λ i. i.id ≤ 46) }
    {
        if sequence != self.wanted {
            return Err(self.fault(code::SEQUENCE, self.wanted, sequence));
        }
        if id == 0 || id > last_id(self.form) {
            return Err(self.fault(code::ID, 0, id));
        }
        match read_numbers(alloc, self.form, numbers) {
            Ok(nums) => self.with_numbers(id, nums),
            Err(NumberFault::NoMemory) => Err(FrameFault::Memory),
            Err(NumberFault::Wrong(got)) => Err(self.fault(code::NOT_CANONICAL, 0, got)),
        }
    }

    /// The item of this id with these numbers, if they are as many as it has.
    fn with_numbers(self, id: u8, nums: Numerals) -> Result<FrameItem, FrameFault>
        requires { id ≤ 46 }
        ensures exact { FrameAnswers result (with_numbers self.start self.form id (Ok nums)) }
        ensures count { IfOk result (λ i. length i.nums ≤ 14) }
        ensures id { IfOk result (λ i. i.id ≤ 46) }
    {
        if vocabulary::has_count(id, nums.items.as_slice()) {
            Ok(FrameItem { id, nums })
        } else {
            Err(self.fault(code::ITEM, 0, line_code::COUNT))
        }
    }
}

/// The last id of a form.
fn last_id(form: u8) -> u8
    ensures value { result ≡ last_id form }
    ensures range { result ≤ 46 }
{
    if form == 2 { kinds::REST } else { kinds::LOOK }
}

/// The form that a first frame states by its third byte.
pub(crate) fn form_of(bytes: &[u8]) -> u8
    ensures { result ≡ form_of_bytes bytes.now }
{
    match bytes {
        [_, _, 2, ..] => 2,
        _ => 1,
    }
}
