//! Lanes as texts.

use qp_model::vocabulary::word_text;
use qp_model::{Lanes, Rec};
use std::alloc::AllocError;

/// A record as a line: its word, its object and its numbers.
fn put_record(text: &mut String, rec: &Rec) -> Result<(), AllocError> {
    if rec.kind >= 1 && rec.kind <= 46 {
        text.push_str(word_text(rec.kind))?;
    }
    write!(text, " {}", rec.of)?;
    for n in &rec.nums {
        write!(text, " {n}")?;
    }
    Ok(())
}

/// The records of a lane, with commas between them.
fn put_lane(text: &mut String, records: &[Rec]) -> Result<(), AllocError> {
    let mut between = "";
    for rec in records {
        text.push_str(between)?;
        put_record(text, rec)?;
        between = ", ";
    }
    Ok(())
}

/// Lanes, with lines between them.
pub(crate) fn put_lanes(text: &mut String, lanes: &Lanes) -> Result<(), AllocError> {
    let mut between = "";
    for lane in lanes.items.iter() {
        text.push_str(between)?;
        put_lane(text, lane.items.as_slice())?;
        between = "\n";
    }
    Ok(())
}
