//! A text read in one pass.

ghost use Rattle.std.specs.Prelude.{◌≡◌, ◌∷◌, [], ◌++◌, ℕ, Ok, IfSome, IsTrue};
ghost use Rattle.qp_model.specs.Kinds.{END_LINE, QP};
ghost use Rattle.qp_model.specs.Output.{is_end_status, item};
ghost use Rattle.qp_model.specs.OutputText.{line_text};
ghost use Rattle.qp_text.specs.ReadText.{read_text};
ghost use Rattle.qp_text_scan.specs.Readable.{IsHead};

use crate::lanes::{line_of_one, read_lanes};
use crate::numbers::{after_byte, spaced};
use crate::words::word;
use qp_model::{Journal, kinds};
use qp_text::Found;
use std::alloc::Global;

/// What the first line states.
#[derive(Clone, Copy)]
struct Head {
    form: u8,
    kernel: u8,
    budget: u32,
}

/// The first line, and what stands behind it.
fn read_head(text: &[u8]) -> Option<(Head, &[u8])>
    ensures text { IfSome result (λ read. text.now ≡ line_text read.0.form (item QP (read.0.form ∷ read.0.kernel ∷ read.0.budget ∷ [])) ++ read.1.now) }
    ensures head { IfSome result (λ read. IsHead read.0.form read.0.kernel read.0.budget) }
{
    let (id, rest) = word(text)?;
    if id != kinds::QP {
        return None;
    }
    let (form, rest) = spaced(rest)?;
    let (kernel, rest) = spaced(rest)?;
    let (budget, rest) = spaced(rest)?;
    let rest = after_byte(b'\n', rest)?;
    if form < 1 || 2 < form || form + 1 < kernel || budget < 1 || 1000000 < budget {
        return None;
    }
    let head = Head {
        form: form as u8,
        kernel: kernel as u8,
        budget: budget as u32,
    };
    Some((head, rest))
}

/// The status of the last line, behind which nothing stands.
fn read_end(text: &[u8]) -> Option<u8>
    ensures text { IfSome result (λ status. (form : ℕ) → text.now ≡ line_text form (item END_LINE (status ∷ []))) }
    ensures status { IfSome result (λ status. IsTrue (is_end_status status)) }
{
    let (status, rest) = line_of_one(kinds::END, text)?;
    if 4 < status {
        return None;
    }
    let status = status as u8;
    if rest.is_empty() && is_end_status(status) {
        Some(status)
    } else {
        None
    }
}

/// Whether a run may end with this status.
fn is_end_status(status: u8) -> bool
    ensures { result ≡ is_end_status status }
{
    status == 0 || status == 3 || status == 4
}

/// The journal of a text, in one pass over it. None says nothing about the text.
pub fn scan_journal(alloc: Global, bytes: &[u8]) -> Option<Found>
    ensures { IfSome result (λ found. read_text bytes.now ≡ Ok (found.form, found.journal)) }
{
    let (head, rest) = read_head(bytes)?;
    let (lanes, rest) = read_lanes(alloc, head.form, rest)?;
    let end = read_end(rest)?;
    Some(Found {
        form: head.form,
        journal: Journal {
            kernel: head.kernel,
            budget: head.budget,
            lanes,
            end,
        },
    })
}
