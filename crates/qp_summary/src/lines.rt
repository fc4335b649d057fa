//! Lines under construction, and how they are put.

ghost use Rattle.std.specs.Prelude.{◌≡◌, ◌++◌, ◌∷◌, [], string_bytes, OnOk};
ghost use Rattle.qp_summary.specs.Written.{lines_joined};
ghost use Rattle.qp_text.specs.Puts.{Puts};

use qp_base::{Sink, SinkFault};
use std::alloc::{AllocError, Global};
use std::marker::Model;

/// Writes a line.
fn put_line<K: Sink>(out: &mut K, line: &str) -> Result<(), SinkFault>
    ensures { Puts result line.now (K.written out.old) (K.written out.new) (K.faults out.old) (K.faults out.new) }
{
    out.put(line.as_bytes())
}

/// Lines, each with its newline. Contracts see their bytes.
#[derive(Drop)]
pub(crate) struct Lines {
    items: Vec<String>,
}

impl Model for Lines {
    ghost use Rattle.std.specs.Prelude.{List, ℕ, map, string_bytes};

    ghost Value = { List (List ℕ) };

    ghost view = { λ b. map string_bytes b.items.items };
}

impl Lines {
    pub(crate) fn none(alloc: Global) -> Self
        ensures { result ≡ [] }
    {
        Lines {
            items: Vec::new(alloc),
        }
    }

    pub(crate) fn push(&mut self, line: String) -> Result<(), AllocError>
        ensures { OnOk result (self.new ≡ self.old ++ string_bytes line ∷ []) }
    {
        Ok(self.items.push(line)?)
    }

    /// Writes the lines, with one put for each.
    pub(crate) fn put<K: Sink>(&self, out: &mut K) -> Result<(), SinkFault>
        ensures { Puts result (lines_joined self.now) (K.written out.old) (K.written out.new) (K.faults out.old) (K.faults out.new) }
    {
        for line in &self.items {
            put_line(out, line)?;
        }
        Ok(())
    }
}
