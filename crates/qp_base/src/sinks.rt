//! Sinks: where output goes.

ghost use Rattle.std.specs.Prelude.{◌≡◌, ◌≤◌, ℕ, List, Option, OnOk, OnErr, is_err};
ghost use Rattle.qp_base.specs.Counts.{CountsIf};
ghost use Rattle.qp_base.specs.Sink.{AppendsPrefix, appended};

/// Why bytes were not written.
#[derive(Clone, Copy, PartialEq, Eq, Debug)]
pub enum SinkFault {
    /// The write failed.
    Failed,
}

/// Where a program writes its output. No put takes memory.
pub trait Sink {
    /// The bytes written so far. A sink that doesn't tell, as a terminal, has None.
    ghost written: { Self → Option (List ℕ) };

    /// How many puts failed. The count stands still at the end of its type.
    ghost faults: { Self → ℕ };

    /// Writes the bytes. A put that failed has written some of them, from the first on.
    fn put(&mut self, bytes: &[u8]) -> Result<(), SinkFault>
        ensures ok { OnOk result (written self.new ≡ appended (written self.old) bytes.now) }
        ensures err { OnErr result (AppendsPrefix (written self.old) bytes.now (written self.new)) }

        ensures faults { CountsIf (is_err result) (faults self.old) (faults self.new) }
        ensures faults_last { faults self.old ≤ faults self.new };
}
