//! Why a stream of frames is not read.

/// Why a stream is no journal: memory was refused, or this is its first fault.
///
/// The offset is that of the first byte of the frame with the fault, or the stream's length where no frame is begun.
/// The codes are: 1 a byte behind 0x7D that needs no escape, 2 the checksum, 3 the sequence byte, 4 a frame that is too
/// short or cut off, 5 no known id, 6 an item that the journal may not have there (`got` is then the code of a text
/// line with it), 7 a number that is not written in the one way.
#[derive(Clone, Copy, PartialEq, Eq, Debug)]
pub enum FrameFault {
    Memory,
    At {
        offset: u64,
        code: u8,
        want: u8,
        got: u8,
    },
}

/// Why numbers are not read: memory was refused, or this byte shows that one is wrong.
#[derive(Clone, Copy, PartialEq, Eq, Debug)]
pub(crate) enum NumberFault {
    NoMemory,
    Wrong(u8),
}
