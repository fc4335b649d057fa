//! Journals read from frames, in whatever pieces they come.

ghost use Rattle.std.specs.Prelude.{◌≡◌, ◌++◌, List, ℕ, [], Err};
ghost use Rattle.qp_frames.specs.Faults.{DecodesTo, IsDecoderOf, answer_of};
ghost use Rattle.qp_frames.specs.FramesLaw.{FindsFrames};
ghost use Rattle.qp_frames.specs.Stream.{decoded};

use crate::faults::FrameFault;
use crate::stream::Stream;
use qp_text::Found;
use std::alloc::Global;
use std::marker::Model;

/// A reader of frames. Contracts see how far it is, or its fault.
#[derive(Drop)]
pub struct Decoder {
    alloc: Global,
    stream: Stream,
    fault: Option<FrameFault>,
}

impl Model for Decoder {
    ghost use Rattle.std.specs.Prelude.{Result};
    ghost use Rattle.qp_frames.specs.declared.faults.FrameFault.{FrameFault};
    ghost use Rattle.qp_frames.specs.declared.stream.Stream.{Stream};
    ghost use Rattle.qp_frames.specs.Stream.{state_of};

    ghost Value = { Result Stream FrameFault };

    ghost view = { λ d. state_of d.stream d.fault };
}

impl Decoder {
    /// A decoder that no byte was fed to.
    pub fn new(alloc: Global) -> Decoder
        ensures { IsDecoderOf result [] }
    {
        Decoder {
            alloc,
            stream: Stream::new(alloc),
            fault: None,
        }
    }

    /// Feeds the next piece of the stream. The first fault is answered by the call whose piece has the byte that shows it,
    /// and by every call after it.
    pub fn feed(&mut self, piece: &[u8]) -> Result<(), FrameFault>
        ensures stands { (before : List ℕ) → IsDecoderOf self.old before → IsDecoderOf self.new (before ++ piece.now) }
        ensures answer { result ≡ answer_of self.new }
        ensures fault { (fault : FrameFault) → self.old ≡ Err fault → self.new ≡ Err fault }
    {
        match self.fault {
            Some(fault) => Err(fault),
            None => match self.stream.take_bytes(self.alloc, piece) {
                Ok(()) => Ok(()),
                Err(fault) => {
                    self.fault = Some(fault);
                    Err(fault)
                }
            },
        }
    }

    /// Ends the stream: the journal that all pieces together are, or the first fault.
    pub fn end(self) -> Result<Found, FrameFault>
        ensures exact { (bytes : List ℕ) → IsDecoderOf self bytes → DecodesTo result (decoded bytes) }

        // A journal is answered exactly where the stream is the frames of one in range, and it is this one in its form.
        ensures frames { (bytes : List ℕ) → IsDecoderOf self bytes → FindsFrames result bytes }
    {
        match self.fault {
            Some(fault) => Err(fault),
            None => self.stream.end(),
        }
    }
}
