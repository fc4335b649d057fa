//! Lanes as texts.

use qp_model::vocabulary::word_text;
use qp_model::{Rec, kinds};
use std::alloc::{AllocError, Global};

/// A number behind a space.
fn put_number(text: &mut String, n: u64) -> Result<(), AllocError> {
    write!(text, " {n}")
}

/// A record as its word, its object and its numbers.
fn put_record(text: &mut String, rec: &Rec) -> Result<(), AllocError> {
    if rec.kind >= 1 && rec.kind <= 46 {
        text.push_str(word_text(rec.kind))?;
    }
    put_number(text, u64::from(rec.of))?;
    for n in &rec.nums {
        put_number(text, *n)?;
    }
    Ok(())
}

/// Whether the record is one of a row of looks.
fn looks(rec: &Rec) -> bool {
    rec.kind == kinds::LOOK || rec.kind == kinds::SEEN
}

/// Records with commas between them, with those of rows of looks or without them.
fn put_records(text: &mut String, records: &[Rec], with_looks: bool) -> Result<(), AllocError> {
    let mut between = "";
    for rec in records {
        if with_looks || !looks(rec) {
            text.push_str(between)?;
            put_record(text, rec)?;
            between = ", ";
        }
    }
    Ok(())
}

/// The same as a text of its own, which is empty for want of memory.
pub(crate) fn shown(alloc: Global, records: &[Rec], with_looks: bool) -> String {
    let mut text = String::new(alloc);
    match put_records(&mut text, records, with_looks) {
        Ok(()) => text,
        Err(_) => String::new(alloc),
    }
}

/// Numbers, and then all records of a lane, as a text, which is empty for want of memory.
pub(crate) fn shown_behind(alloc: Global, numbers: &[u64], records: &[Rec]) -> String {
    let mut text = String::new(alloc);
    match put_behind(&mut text, numbers, records) {
        Ok(()) => text,
        Err(_) => String::new(alloc),
    }
}

fn put_behind(text: &mut String, numbers: &[u64], records: &[Rec]) -> Result<(), AllocError> {
    for n in numbers {
        put_number(text, *n)?;
    }
    text.push_str(": ")?;
    put_records(text, records, true)
}
