//! The files of `data/`, and the lines that the program prints.

use anyhow::{Context, Error, Result, anyhow};
use std::fs;

/// A table: its name, and its text.
#[derive(Drop)]
pub struct Table {
    pub name: &'static str,
    pub text: String,
}

impl Table {
    /// Reads a table.
    pub fn read(rt: &HostRuntime, name: &'static str) -> Result<Table> {
        Ok(Table {
            name,
            text: text(rt, name)?,
        })
    }

    /// Says of a line, counted from 1, why it can't be read.
    pub fn fault(&self, place: usize, why: &str) -> Error {
        let name = self.name;
        anyhow!("{name}, line {place}: {why}")
    }
}

/// Reads the text of a file.
pub fn text(rt: &HostRuntime, path: &str) -> Result<String> {
    fs::read_to_string(rt, path).context(format_args!("reading {path}"))
}

/// Reads the bytes of a file.
pub fn bytes(rt: &HostRuntime, path: &str) -> Result<Vec<u8>> {
    fs::read(rt, path).context(format_args!("reading {path}"))
}

/// Prints the line of a case: its name, what was said, and whether that is wrong.
pub fn print_case(rt: &HostRuntime, name: &str, said: &str, wanted: &str) -> Result<()> {
    if said == wanted {
        println!(rt; "{name}: {said}")?;
    } else {
        println!(rt; "{name}: {said}, wrong")?;
    }
    Ok(())
}
