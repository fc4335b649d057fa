//! Tables of blocks: lines `KEY: VALUE`, parted by empty lines. A line that begins with `#` is a heading.

use crate::files::Table;
use anyhow::Result;
use std::alloc::Global;

/// A line of a block, with its place in the table, from 1.
#[derive(Clone, Copy)]
pub struct Line<'a> {
    pub place: usize,
    pub key: &'a str,
    pub value: &'a str,
}

/// The lines of a block. There is at least one.
#[derive(Drop)]
pub struct Block<'a> {
    pub lines: Vec<Line<'a>>,
}

impl<'a> Block<'a> {
    /// The value of a key that stands once.
    pub fn value(&self, table: &Table, key: &str) -> Result<&'a str> {
        match self.optional(table, key)? {
            Some(value) => Ok(value),
            None => Err(table.fault(self.place(), "its block lacks a key")),
        }
    }

    /// The value of a key that stands at most once.
    pub fn optional(&self, table: &Table, key: &str) -> Result<Option<&'a str>> {
        let mut value = None;
        for line in &self.lines {
            if line.key == key && value.replace(line.value).is_some() {
                return Err(table.fault(line.place, "its key stands twice"));
            }
        }
        Ok(value)
    }

    /// The number of a key that stands at most once.
    pub fn number(&self, table: &Table, key: &str) -> Result<Option<u64>> {
        let Some(value) = self.optional(table, key)? else {
            return Ok(None);
        };
        match value.parse() {
            Ok(number) => Ok(Some(number)),
            Err(_) => Err(table.fault(self.place(), "its block has a value that is no number")),
        }
    }

    /// Refuses a line whose key is none of these, and doesn't begin with one of these words.
    pub fn has_only(&self, table: &Table, keys: &[&str], words: &[&str]) -> Result<()> {
        for line in &self.lines {
            if !is_among(line.key, keys) && !is_among(first_word(line.key), words) {
                return Err(table.fault(line.place, "no key of its block"));
            }
        }
        Ok(())
    }

    /// The place of its first line.
    pub fn place(&self) -> usize {
        match self.lines.first() {
            Some(line) => line.place,
            None => 0,
        }
    }
}

fn is_among(key: &str, keys: &[&str]) -> bool {
    keys.iter().any(|other| *other == key)
}

/// What stands before the first space.
fn first_word(key: &str) -> &str {
    match key.split_once(' ') {
        Some((first, _)) => first,
        None => key,
    }
}

/// The blocks of a table.
pub fn of_table(alloc: Global, table: &Table) -> Result<Vec<Block<'_>>> {
    let mut blocks = Vec::new(alloc);
    let mut lines = Vec::new(alloc);
    for (i, text) in table.text.lines().enumerate() {
        if text.is_empty() {
            close(&mut blocks, std::mem::replace(&mut lines, Vec::new(alloc)))?;
        } else if !text.starts_with('#') {
            lines.push(line_of(table, i.saturating_add(1), text)?)?;
        }
    }
    close(&mut blocks, lines)?;
    Ok(blocks)
}

/// Puts the lines of a block, if there are any, behind the blocks before it.
fn close<'a>(blocks: &mut Vec<Block<'a>>, lines: Vec<Line<'a>>) -> Result<()> {
    if !lines.is_empty() {
        blocks.push(Block { lines })?;
    }
    Ok(())
}

fn line_of<'a>(table: &Table, place: usize, text: &'a str) -> Result<Line<'a>> {
    match text.split_once(": ") {
        Some((key, value)) => Ok(Line { place, key, value }),
        None => Err(table.fault(place, "no line of a block")),
    }
}
