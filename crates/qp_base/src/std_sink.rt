//! Streams as sinks: standard output and standard error.

ghost use Rattle.std.specs.Prelude.{◌≡◌, ◌≤◌, Option, None, OnOk, OnErr, is_err};
ghost use Rattle.std.specs.Io.KnownBytes.{Appends};
ghost use Rattle.qp_base.specs.Counts.{CountsIf};
ghost use Rattle.qp_base.specs.Sink.{AppendsPrefix, TakesPrefix, appended};

use crate::sinks::{Sink, SinkFault};
use std::io::{ErrorKind, Stderr, Stdout, Write};

/// A stream as a sink: each put goes to the stream, all of its bytes and no others. It doesn't tell what was written,
/// since a stream may not; where it does, as one in memory, what it got shows that.
#[derive(Drop)]
pub struct StdSink<W: Write + Drop> {
    stream: W,
    faults: u64,
}

impl<W: Write + Drop> StdSink<W> {
    /// A sink over this stream.
    pub fn over(stream: W) -> StdSink<W>
        ensures stream { result.stream ≡ stream }
        ensures faults { result.faults ≡ 0 }
    {
        StdSink { stream, faults: 0 }
    }
}

impl StdSink<Stdout> {
    /// Standard output.
    pub fn out(rt: &HostRuntime) -> StdSink<Stdout>
        ensures { result.faults ≡ 0 }
    {
        StdSink::over(rt.stdout())
    }
}

impl StdSink<Stderr> {
    /// Standard error.
    pub fn notes(rt: &HostRuntime) -> StdSink<Stderr>
        ensures { result.faults ≡ 0 }
    {
        StdSink::over(rt.stderr())
    }
}

impl<W: Write + Drop> Sink for StdSink<W> {
    ghost written = { λ _. None };

    ghost faults = { λ s. s.faults };

    fn put(&mut self, bytes: &[u8]) -> Result<(), SinkFault>
        ensures stream_ok { OnOk result (Appends (W.contents self.old.stream) (W.contents self.new.stream) bytes.now) }
        ensures stream_err { OnErr result (TakesPrefix (W.contents self.old.stream) (W.contents self.new.stream) bytes.now) }

        ensures ok { OnOk result (None ≡ appended None bytes.now) }
        ensures err { OnErr result (AppendsPrefix None bytes.now None) }

        ensures faults { CountsIf (is_err result) self.old.faults self.new.faults }
        ensures faults_last { self.old.faults ≤ self.new.faults }
    {
        let answer = write_whole(&mut self.stream, bytes);
        if answer.is_err() {
            self.faults = self.faults.saturating_add(1);
        }
        answer
    }
}

/// Writes all the bytes, in as many writes as it takes. A write that takes none of them is a fault.
fn write_whole<W: Write>(stream: &mut W, bytes: &[u8]) -> Result<(), SinkFault>
    ensures ok { OnOk result (Appends (W.contents stream.old) (W.contents stream.new) bytes.now) }
    ensures err { OnErr result (TakesPrefix (W.contents stream.old) (W.contents stream.new) bytes.now) }
{
    let mut done = 0usize;
    for _ in 0..u64::MAX {
        if done == bytes.len() {
            return Ok(());
        }
        match stream.write(&bytes[done..]) {
            Ok(0) => return Err(SinkFault::Failed),
            Ok(taken) => done += taken,
            Err(error) if error.kind() == ErrorKind::Interrupted => {}
            Err(_) => return Err(SinkFault::Failed),
        }
    }
    Err(SinkFault::Failed)
}
