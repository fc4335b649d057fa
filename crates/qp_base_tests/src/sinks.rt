//! Sinks: bytes in memory, gathered pieces, and the standard streams.

ghost use Rattle.std.specs.Prelude.{◌≡◌, length, IfOk};

use qp_base::{Gathered, MemSink, Sink, SinkFault, StdSink};
use std::alloc::{AllocError, Global};
use std::marker::Brand;

/// A sink in memory with so much room, in which the puts of these numbers keep so many bytes and fail.
fn in_memory(alloc: Global, room: u64, failing: &[(u64, u64)]) -> Result<MemSink, AllocError>
    ensures empty { IfOk result (λ sink. length sink.bytes ≡ 0) }
    ensures faults { IfOk result (λ sink. sink.faults ≡ 0) }
{
    match MemSink::new(alloc, room, Vec::from_slice(alloc, failing)?) {
        Ok(sink) => Ok(sink),
        Err(_) => Err(AllocError),
    }
}

/// Whether this is left of `ab`, `cd`, `efg` and `h` in six bytes of room, where put 1 keeps so many bytes and fails.
fn is_left(alloc: Global, kept: u64, want: &[u8]) -> Result<bool, AllocError> {
    let mut sink = in_memory(alloc, 6, &[(1, kept), (1, 2)])?;
    let fails_once = sink.put(b"ab").is_ok() && sink.put(b"cd") == Err(SinkFault::Failed);
    let _ = sink.put(b"efg");
    let _ = sink.put(b"h");
    Ok(fails_once && sink.bytes() == want)
}

/// How many bytes put 1 keeps, and what is left.
const LEFT: [(u64, &[u8]); 3] = [(0, b"abefgh"), (1, b"abcefg"), (9, b"abcdef")];

#[test]
fn a_sink_in_memory_keeps_what_its_faults_leave(rt: HostRuntime) {
    for (kept, want) in &LEFT {
        assert!(rt;
            is_left(rt.alloc(), *kept, want) == Ok(true),
            "keeping {kept}"
        );
    }
}

/// A sink that gathers over one in memory.
type OverMemory = Gathered<MemSink, Brand>;

/// A sink that gathers over one in memory with puts that fail.
fn gathered(alloc: Global, failing: &[(u64, u64)]) -> Result<OverMemory, AllocError> {
    match Gathered::new(alloc, in_memory(alloc, 1000000, failing)?) {
        Ok(sink) => Ok(sink),
        Err(_) => Err(AllocError),
    }
}

/// Puts so many times a byte. Whether that works.
fn put(alloc: Global, sink: &mut OverMemory, byte: u8, len: usize) -> Result<bool, AllocError> {
    let bytes = vec![in alloc; byte; len]?;
    Ok(sink.put(&bytes).is_ok())
}

/// A put that fits, one before which the first goes on, one larger than the room, and one more; with how many bytes have gone on then.
const PUTS: [(u8, usize, usize); 4] = [
    (b'a', 40000, 0),
    (b'b', 40000, 40000),
    (b'c', 70000, 150000),
    (b'd', 1, 150000),
];

/// Whether the puts work, with as many bytes gone on as they say.
fn are_put(alloc: Global, sink: &mut OverMemory) -> bool {
    for (byte, len, below) in &PUTS {
        if put(alloc, sink, *byte, *len) != Ok(true) || sink.inner().bytes().len() != *below {
            return false;
        }
    }
    true
}

fn add(bytes: &mut Vec<u8>, byte: u8, len: usize) -> Result<(), AllocError> {
    for _ in 0..len {
        bytes.push(byte)?;
    }
    Ok(())
}

/// All bytes of the puts, in order.
fn all_bytes(alloc: Global) -> Result<Vec<u8>, AllocError> {
    let mut bytes = Vec::new(alloc);
    for (byte, len, _) in &PUTS {
        add(&mut bytes, *byte, *len)?;
    }
    Ok(bytes)
}

/// Whether a flush works, behind which these bytes have gone on.
fn flushes(sink: &mut OverMemory, want: &[u8]) -> bool {
    sink.flush().is_ok() && sink.inner().bytes() == want
}

/// Whether all bytes are handed on in order, and nothing is left behind a flush.
fn hands_on(alloc: Global, mut sink: OverMemory, want: &[u8]) -> bool {
    let hands_on = are_put(alloc, &mut sink)
        && flushes(&mut sink, want)
        && flushes(&mut sink, want);
    let below = sink.into_inner();
    hands_on && below.bytes() == want
}

/// The same of a new sink.
fn gathers(alloc: Global, want: &[u8]) -> bool {
    match gathered(alloc, &[]) {
        Ok(sink) => hands_on(alloc, sink, want),
        Err(_) => false,
    }
}

#[test]
fn a_sink_that_gathers_hands_on_all_bytes_in_order(rt: HostRuntime) {
    let gathers = match all_bytes(rt.alloc()) {
        Ok(want) => gathers(rt.alloc(), want.as_slice()),
        Err(_) => false,
    };
    assert!(rt; gathers);
}

/// Whether all puts work.
fn put_all(alloc: Global, sink: &mut OverMemory) -> Result<bool, AllocError> {
    let mut is_well = true;
    for (byte, len, _) in &PUTS {
        is_well &= put(alloc, sink, *byte, *len)?;
    }
    Ok(is_well)
}

/// Whether a flush and a put fail, and fail again.
fn fails_on(sink: &mut OverMemory) -> bool {
    for _ in 0..2 {
        if sink.flush() != Err(SinkFault::Failed) || sink.put(b"e") != Err(SinkFault::Failed) {
            return false;
        }
    }
    true
}

/// Whether the put of this number keeps so many bytes and fails, with so many gone on then, and the fault is remembered.
fn remembers(alloc: Global, number: u64, kept: u64, below: usize) -> Result<bool, AllocError> {
    let mut sink = gathered(alloc, &[(number, kept)])?;
    let is_right = put_all(alloc, &mut sink)? == (number == 3) && fails_on(&mut sink);
    Ok(is_right && sink.inner().bytes().len() == below)
}

/// A fault of what is gathered, twice, of a long put, and of what a flush hands on.
const FAULTS: [(u64, u64, usize); 4] = [(0, 5, 5), (1, 6, 40006), (2, 7, 80007), (3, 8, 150001)];

#[test]
fn a_sink_that_gathers_remembers_a_fault(rt: HostRuntime) {
    for (number, kept, below) in &FAULTS {
        assert!(rt;
            remembers(rt.alloc(), *number, *kept, *below) == Ok(true),
            "fault {number}"
        );
    }
}

#[test]
fn a_standard_sink_writes(rt: HostRuntime) {
    assert!(rt; StdSink::out(&rt).put(b"to standard output\n").is_ok());
    assert!(rt; StdSink::notes(&rt).put(b"to standard error\n").is_ok());
}
