//! A sink in memory.

ghost use Rattle.std.specs.Prelude.{◌≡◌, ◌≤◌, ◌-◌, ℕ, List, [], length, Option, Some, OnOk, OnErr, IfOk, is_err, is_some};
ghost use Rattle.qp_base.specs.Counts.{CountsIf};
ghost use Rattle.qp_base.specs.MemSink.{Stored, after_put, kept_at_fault, first_said};
ghost use Rattle.qp_base.specs.Sink.{AppendsPrefix, appended};

use crate::faults::Memory;
use crate::sinks::{Sink, SinkFault};
use std::alloc::Global;
use std::marker::Model;

/// The puts that fail, each with how many bytes it keeps. Contracts see the list.
#[derive(Drop)]
struct PutFaults {
    items: Vec<(u64, u64)>,
}

impl Model for PutFaults {
    ghost use Rattle.std.specs.Prelude.{List, ℕ};

    ghost Value = { List (ℕ × ℕ) };

    ghost view = { λ f. f.items.items };
}

impl PutFaults {
    /// How many bytes the put of this number keeps, if it fails.
    fn find(&self, put: u64) -> Option<u64>
        ensures { result ≡ first_said self.now put }
    {
        self.items
            .iter()
            .find(|fault| fault.0 == put)
            .map(|fault| fault.1)
    }
}

/// A sink that keeps its bytes in memory, with puts that fail on purpose. It tells what was written.
#[derive(Drop)]
pub struct MemSink {
    written: Vec<u8>,
    room: u64,
    failing: PutFaults,
    puts: u64,
    faults: u64,
}

impl Model for MemSink {
    ghost use Rattle.std.specs.Prelude.{◌≤◌, vec_len, vec_capacity};
    ghost use Rattle.qp_base.specs.MemSink.{Stored};

    ghost Value = { Stored };

    ghost view = { λ s. record { bytes = s.written.items; room = s.room; failing = s.failing; puts = s.puts; faults = s.faults } };

    ghost invariant = { λ s. (vec_len s.written ≤ s.room) × (s.room ≤ vec_capacity s.written) };
}

impl MemSink {
    /// A sink with room for so many bytes, which it takes at once. Each pair of `failing` has the number, from 0 on, of a
    /// put that fails, and how many bytes that put keeps. The first pair of a number counts.
    pub fn new(alloc: Global, room: u64, failing: Vec<(u64, u64)>) -> Result<MemSink, Memory>
        ensures bytes { IfOk result (λ sink. sink.bytes ≡ []) }
        ensures room { IfOk result (λ sink. sink.room ≡ room) }
        ensures failing { IfOk result (λ sink. sink.failing ≡ failing.items) }
        ensures puts { IfOk result (λ sink. sink.puts ≡ 0) }
        ensures faults { IfOk result (λ sink. sink.faults ≡ 0) }
    {
        match Vec::with_capacity(alloc, room as usize) {
            Ok(written) => Ok(MemSink {
                written,
                room,
                failing: PutFaults { items: failing },
                puts: 0,
                faults: 0,
            }),
            Err(_) => Err(Memory),
        }
    }

    /// The bytes written so far.
    pub fn bytes(&self) -> &[u8]
        ensures { result.now ≡ self.now.bytes }
    {
        self.written.as_slice()
    }

    /// How many of so many bytes the next put keeps, if it fails.
    fn kept_at_fault(&self, len: u64) -> Option<u64>
        ensures { result ≡ kept_at_fault self.now len }
    {
        let free = self.room - self.written.len() as u64;
        match self.failing.find(self.puts) {
            Some(kept) => Some(kept.min(len).min(free)),
            None if len <= free => None,
            None => Some(free),
        }
    }
}

impl Sink for MemSink {
    ghost written = { λ s. Some s.bytes };

    ghost faults = { λ s. s.faults };

    fn put(&mut self, bytes: &[u8]) -> Result<(), SinkFault>
        ensures fails { is_err result ≡ is_some (kept_at_fault self.old (length bytes.now)) }
        ensures after { self.new ≡ after_put self.old bytes.now }

        ensures ok { OnOk result (Some self.new.bytes ≡ appended (Some self.old.bytes) bytes.now) }
        ensures err { OnErr result (AppendsPrefix (Some self.old.bytes) bytes.now (Some self.new.bytes)) }

        ensures faults { CountsIf (is_err result) self.old.faults self.new.faults }
        ensures faults_last { self.old.faults ≤ self.new.faults }
    {
        let kept = self.kept_at_fault(bytes.len() as u64);
        self.puts = self.puts.saturating_add(1);
        match kept {
            None => {
                self.written.extend_from_slice(bytes).unwrap();
                Ok(())
            }
            Some(kept) => {
                self.faults = self.faults.saturating_add(1);
                self.written
                    .extend_from_slice(&bytes[..kept as usize])
                    .unwrap();
                Err(SinkFault::Failed)
            }
        }
    }
}
