//! A journal with some lines changed.

use crate::blocks::Line;
use crate::files::Table;
use anyhow::Result;
use std::alloc::{AllocError, Global};

/// A change of one line of a text, by the line's place from 1 in the text before any change, as `Line` of the table states it.
#[derive(Clone, Copy)]
pub struct Change<'a> {
    at: usize,
    kind: Kind<'a>,
    stated: Line<'a>,
}

#[derive(Clone, Copy)]
enum Kind<'a> {
    /// This line, and another in its place.
    Replace(&'a str, &'a str),
    /// This line is left out.
    Drop(&'a str),
    /// A line behind the one at this place.
    Insert(&'a str),
}

impl<'a> Change<'a> {
    /// The change that a line states, if it states one.
    pub fn of_line(stated: Line<'a>) -> Option<Change<'a>> {
        let (word, number) = stated.key.split_once(' ')?;
        let kind = match word {
            "replace" => {
                let (old, new) = stated.value.split_once(" -> ")?;
                Kind::Replace(old, new)
            }
            "drop" => Kind::Drop(stated.value),
            "insert" => Kind::Insert(stated.value),
            _ => return None,
        };
        let at = number.parse().ok()?;
        Some(Change { at, kind, stated })
    }

    /// The line that it replaces or leaves out.
    fn old(&self) -> Option<&'a str> {
        match self.kind {
            Kind::Replace(old, _) | Kind::Drop(old) => Some(old),
            Kind::Insert(_) => None,
        }
    }

    /// Whether the text has the line that it changes, and none of the changes before it takes that line away.
    fn is_right(&self, text: &str, before: &[Change]) -> bool {
        let Some(i) = self.at.checked_sub(1) else {
            return false;
        };
        match (text.lines().nth(i), self.old()) {
            (Some(line), Some(old)) => old == line && !before.iter().any(|it| it.takes(self.at)),
            (line, None) => line.is_some(),
            (None, Some(_)) => false,
        }
    }

    /// Whether it takes away the line at this place.
    fn takes(&self, place: usize) -> bool {
        self.at == place && self.old().is_some()
    }
}

/// The text with these changes.
pub fn changed(alloc: Global, table: &Table, text: &str, changes: &[Change]) -> Result<String> {
    for (i, change) in changes.iter().enumerate() {
        if !change.is_right(text, &changes[..i]) {
            return Err(table.fault(change.stated.place, "the journal has another line there"));
        }
    }
    let mut out = String::new(alloc);
    for (i, line) in text.lines().enumerate() {
        put(&mut out, i.saturating_add(1), line, changes)?;
    }
    Ok(out)
}

/// Puts what stands for the line at a place, and what stands behind it.
fn put(out: &mut String, place: usize, line: &str, changes: &[Change]) -> Result<(), AllocError> {
    if let Some(line) = kept(place, line, changes) {
        put_line(out, line)?;
    }
    for change in changes {
        match change.kind {
            Kind::Insert(new) if change.at == place => put_line(out, new)?,
            _ => {}
        }
    }
    Ok(())
}

/// What stands in the place of a line, if it isn't left out.
fn kept<'a>(place: usize, line: &'a str, changes: &[Change<'a>]) -> Option<&'a str> {
    for change in changes {
        match change.kind {
            Kind::Replace(_, new) if change.at == place => return Some(new),
            Kind::Drop(_) if change.at == place => return None,
            _ => {}
        }
    }
    Some(line)
}

fn put_line(out: &mut String, line: &str) -> Result<(), AllocError> {
    out.push_str(line)?;
    out.push('\n')
}
