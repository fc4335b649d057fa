//! Answers of the program to words over files, which a block of a table has line by line.

use crate::asking::{Answer, Files, ask};
use anyhow::Result;
use qp_tables::blocks::{Block, Line};
use qp_tables::escapes;
use qp_tables::files::{Table, bytes, print_case};
use std::alloc::{AllocError, Global};
use std::sync::Wait;
use std::thread::Threads;

/// The keys whose lines make the bytes of a file, or of the output. `KEY file` has the bytes of a file of `data/`, and `KEY 1000` its
/// line a thousand times.
const CONTENTS: [&str; 6] = ["system", "stimuli", "journal", "prints", "starts", "ends"];

/// The other keys.
const OTHERS: [&str; 7] = [
    "case",
    "for",
    "words",
    "failing load",
    "failing put",
    "lines",
    "answer",
];

/// A case, and the text that stands in the place of `@`.
#[derive(Clone, Copy)]
struct Case<'a> {
    rt: HostRuntime,
    table: &'a Table,
    block: &'a Block<'a>,
    text: &'a str,
}

/// Prints what is answered in the case of a block, once for each text `for`.
pub fn show<R: Threads + Wait + Sync>(
    rt: &HostRuntime,
    waits: &R,
    table: &Table,
    block: &Block,
) -> Result<()> {
    let name = block.value(table, "case")?;
    let mut has_texts = false;
    for line in &block.lines {
        if line.key != "for" {
            continue;
        }
        has_texts = true;
        let text = line.value;
        let case = Case {
            rt: *rt,
            table,
            block,
            text,
        };
        case.show(waits, format!(in rt.alloc(); "{name}, {text}")?.as_str())?;
    }
    if has_texts {
        return Ok(());
    }
    let case = Case {
        rt: *rt,
        table,
        block,
        text: "@",
    };
    case.show(waits, name)
}

impl Case<'_> {
    /// Prints what is answered under this name.
    fn show<R: Threads + Wait + Sync>(&self, waits: &R, name: &str) -> Result<()> {
        self.block.has_only(self.table, &OTHERS, &CONTENTS)?;
        let alloc = self.rt.alloc();
        let words = self.block.optional(self.table, "words")?;
        let words = words
            .unwrap_or("check system stimuli journal")
            .replace(alloc, "@", self.text)?;
        let words = words_of(alloc, words.as_str())?;
        let answer = ask(waits, alloc, &words, self.files()?)?;
        let said = self.said(&answer)?;
        let wanted = self.block.value(self.table, "answer")?;
        print_case(&self.rt, name, said.as_str(), wanted)
    }

    /// The files of the call.
    fn files(&self) -> Result<Files> {
        let mut files = Files::none(self.rt.alloc());
        for name in ["system", "stimuli", "journal"] {
            if let Some(bytes) = self.content(name)? {
                files.add(name, bytes)?;
            }
        }
        let load = self.block.number(self.table, "failing load")?;
        let put = self.block.number(self.table, "failing put")?;
        Ok(files.failing(load, put))
    }

    /// The bytes that the lines of a key state; None where it has no line.
    fn content(&self, key: &str) -> Result<Option<Vec<u8>>> {
        let mut content = Vec::new(self.rt.alloc());
        let mut is_stated = false;
        for line in &self.block.lines {
            if let Some(rest) = line.key.strip_prefix(key) {
                self.put(&mut content, line, rest)?;
                is_stated = true;
            }
        }
        Ok(if is_stated { Some(content) } else { None })
    }

    /// Puts what a line states, by what stands behind its key.
    fn put(&self, content: &mut Vec<u8>, line: &Line, rest: &str) -> Result<()> {
        if rest == " file" {
            content.extend_from_slice(&bytes(&self.rt, line.value)?)?;
            return Ok(());
        }
        let alloc = self.rt.alloc();
        let mut stated = Vec::new(alloc);
        let value = line.value.replace(alloc, "@", self.text)?;
        if escapes::put(&mut stated, value.as_str())?.is_none() {
            return Err(self.table.fault(line.place, "no such escape"));
        }
        let Some(times) = times_of(rest) else {
            return Err(self.table.fault(line.place, "no number of times"));
        };
        for _ in 0..times {
            content.extend_from_slice(&stated)?;
        }
        Ok(())
    }

    /// The status and the note of an answer, and whether it printed something else than it should have.
    fn said(&self, answer: &Answer) -> Result<String> {
        let (status, note) = (answer.status, answer.note());
        let space = if note.is_empty() { "" } else { " " };
        let other = if self.is_printed(answer.out.bytes())? {
            ""
        } else {
            ", with another output"
        };
        Ok(format!(in self.rt.alloc(); "{status}{space}{note}{other}")?)
    }

    /// Whether an output is as `prints` states it, or `starts` so, or has so many `lines` and `ends` so.
    fn is_printed(&self, out: &[u8]) -> Result<bool> {
        if let Some(start) = self.content("starts")? {
            return Ok(out.starts_with(&start));
        }
        let Some(lines) = self.block.number(self.table, "lines")? else {
            return Ok(match self.content("prints")? {
                Some(prints) => prints.as_slice() == out,
                None => out.is_empty(),
            });
        };
        let newlines = out.iter().filter(|byte| **byte == b'\n').count();
        Ok(match self.content("ends")? {
            Some(end) => newlines as u64 == lines && out.ends_with(&end),
            None => newlines as u64 == lines,
        })
    }
}

/// How often a line stands, by what follows its key.
fn times_of(rest: &str) -> Option<u64> {
    if rest.is_empty() {
        return Some(1);
    }
    rest.strip_prefix(" ")?.parse().ok()
}

/// The words of a line, parted by single spaces; `\e` is an empty word, and a backslash alone has no words.
fn words_of(alloc: Global, line: &str) -> Result<Vec<&str>, AllocError> {
    let mut words = Vec::new(alloc);
    if line == "\\" {
        return Ok(words);
    }
    for word in line.split(' ') {
        words.push(if word == "\\e" { "" } else { word })?;
    }
    Ok(words)
}
