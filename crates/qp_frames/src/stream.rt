//! The machine that reads frames byte by byte.

ghost use Rattle.std.specs.Prelude.{◌≡◌, ◌≤◌, length, Ok};
ghost use Rattle.qp_frames.specs.Faults.{Becomes, DecodesTo};
ghost use Rattle.qp_frames.specs.Stream.{after_escape, before_all, end_frame, stream_ended, fed, finish_stream, stream_form, keep_byte, take_byte, take_plain, with_item};

use crate::bytes::{END, ESCAPE};
use crate::code;
use crate::faults::FrameFault;
use crate::frames::{FrameItem, FrameStart, form_of};
use qp_model::Journal;
use qp_text::{Found, LineFault, Reading, code as line_code};
use std::alloc::Global;
use std::marker::Model;

/// Bytes. Contracts see the list.
#[derive(Drop)]
pub(crate) struct Bytes {
    pub items: Vec<u8>,
}

impl Model for Bytes {
    ghost use Rattle.std.specs.Prelude.{List, ℕ};

    ghost Value = { List ℕ };

    ghost view = { λ b. b.items.items };
}

/// What has been read: the journal so far, the next frame's sequence byte, the offset of that frame and that of the next
/// byte, whether an escape came last, and the frame's bytes so far without their escapes.
#[derive(Drop)]
pub(crate) struct Stream {
    pub reading: Reading,
    pub sequence: u8,
    pub start: u64,
    pub offset: u64,
    pub is_escaped: bool,
    pub bytes: Bytes,
}

impl Stream {
    /// Nothing has been read.
    pub fn new(alloc: Global) -> Stream
        ensures { result ≡ before_all }
    {
        Stream {
            reading: Reading::new(alloc),
            sequence: 1,
            start: 0,
            offset: 0,
            is_escaped: false,
            bytes: Bytes {
                items: Vec::new(alloc),
            },
        }
    }

    /// Takes more bytes of the stream, up to the first fault.
    pub fn take_bytes(&mut self, alloc: Global, bytes: &[u8]) -> Result<(), FrameFault>
        ensures { Becomes result self.new (fed (Ok self.old) bytes.now) }
    {
        let mut rest = bytes;
        while let [b, more @ ..] = rest {
            self.take_byte(alloc, *b)?;
            rest = more;
        }
        Ok(())
    }

    /// Takes one more byte of the stream.
    pub fn take_byte(&mut self, alloc: Global, b: u8) -> Result<(), FrameFault>
        ensures { Becomes result self.new (take_byte self.old b) }
    {
        if self.is_escaped {
            self.after_escape(b)
        } else {
            self.take_plain(alloc, b)
        }
    }

    /// Takes the byte behind an escape.
    fn after_escape(&mut self, b: u8) -> Result<(), FrameFault>
        ensures { Becomes result self.new (after_escape self.old b) }
    {
        match b {
            0x5E => self.keep(END),
            0x5D => self.keep(ESCAPE),
            _ => Err(FrameFault::At {
                offset: self.start,
                code: code::BAD_ESCAPE,
                want: 0,
                got: b,
            }),
        }
    }

    /// Takes a byte without an escape before it.
    fn take_plain(&mut self, alloc: Global, b: u8) -> Result<(), FrameFault>
        ensures { Becomes result self.new (take_plain self.old b) }
    {
        match b {
            END => self.end_frame(alloc),
            ESCAPE => {
                self.is_escaped = true;
                self.offset = self.offset.saturating_add(1);
                Ok(())
            }
            _ => self.keep(b),
        }
    }

    /// Takes one more byte of the frame.
    fn keep(&mut self, b: u8) -> Result<(), FrameFault>
        ensures { Becomes result self.new (keep_byte self.old b) }
    {
        if self.bytes.items.push(b).is_err() {
            return Err(FrameFault::Memory);
        }
        self.is_escaped = false;
        self.offset = self.offset.saturating_add(1);
        Ok(())
    }

    /// The frame ends, and its item is taken.
    fn end_frame(&mut self, alloc: Global) -> Result<(), FrameFault>
        ensures { Becomes result self.new (end_frame self.old) }
    {
        let form = self.form();
        let place = FrameStart {
            start: self.start,
            form,
            wanted: self.sequence,
        };
        let item = place.item_of_frame(alloc, self.bytes.items.as_slice())?;
        self.take_item(alloc, form, &item)
    }

    /// Takes the item of a frame. The next frame may begin.
    fn take_item(&mut self, alloc: Global, form: u8, item: &FrameItem) -> Result<(), FrameFault>
        requires { length item.now.nums ≤ 14 }
        ensures { Becomes result self.new (with_item form self.old (Ok item.now)) }
    {
        let nums = item.nums.items.as_slice();
        match self.reading.take_item(alloc, form, item.id, nums) {
            Ok(()) => {
                self.bytes.items.clear();
                self.sequence = self.sequence.wrapping_add(1);
                self.offset = self.offset.saturating_add(1);
                self.start = self.offset;
                Ok(())
            }
            Err(LineFault::Memory) => Err(FrameFault::Memory),
            Err(LineFault::Code(code)) => Err(FrameFault::At {
                offset: self.start,
                code: code::ITEM,
                want: 0,
                got: code,
            }),
        }
    }

    /// The form of this frame.
    fn form(&self) -> u8
        ensures { result ≡ stream_form self.now }
    {
        if self.reading.begun {
            self.reading.form
        } else {
            form_of(self.bytes.items.as_slice())
        }
    }

    /// The stream ends here.
    pub fn end(self) -> Result<Found, FrameFault>
        ensures { DecodesTo result (stream_ended (Ok self)) }
    {
        if self.is_escaped || !self.bytes.items.is_empty() {
            return Err(FrameFault::At {
                offset: self.start,
                code: code::LENGTH,
                want: 0,
                got: 0,
            });
        }
        finish(self.start, self.reading)
    }
}

/// The stream ends behind a frame, and is that long.
fn finish(offset: u64, reading: Reading) -> Result<Found, FrameFault>
    ensures { DecodesTo result (finish_stream offset reading reading.end) }
{
    let Some(end) = reading.end else {
        return Err(FrameFault::At {
            offset,
            code: code::ITEM,
            want: 0,
            got: line_code::NO_END,
        });
    };
    Ok(Found {
        form: reading.form,
        journal: Journal {
            kernel: reading.kernel,
            budget: reading.budget,
            lanes: reading.lanes,
            end,
        },
    })
}
