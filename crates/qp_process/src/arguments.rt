//! The words of a call among the arguments of the process.

ghost use Rattle.std.specs.Prelude.{◌≡◌, drop, map, IfOk, string_bytes};
ghost use Rattle.std.specs.IoError.{error_kind};
ghost use Rattle.std.specs.Vec.Iter.{into_iter_items};
ghost use Rattle.qp_commands.specs.WordTable.{texts};
ghost use Rattle.qp_process.specs.Process.{unread_answer};

use qp_run::Status;
use std::alloc::{AllocError, Global};
use std::env::Args;
use std::io;

/// The arguments behind the first, which is the program's name.
pub fn words_of(alloc: Global, args: Args) -> Result<Vec<String>, AllocError>
    ensures { IfOk result (λ words. words.items ≡ drop 1 (into_iter_items args)) }
{
    let mut words = Vec::new(alloc);
    for word in args.skip(1) {
        words.push(word)?;
    }
    Ok(words)
}

/// Words as texts.
pub fn texts_of<'w>(alloc: Global, words: &'w [String]) -> Result<Vec<&'w str>, AllocError>
    ensures { IfOk result (λ all. texts all.items ≡ map string_bytes words.entry.now) }
{
    let mut texts = Vec::new(alloc);
    for word in words {
        texts.push(word.as_str())?;
    }
    Ok(texts)
}

/// Arguments that aren't text are no words of the program; else memory was refused.
pub fn unread(error: &io::Error) -> Status
    ensures { result ≡ unread_answer (error_kind error.now) }
{
    match error.kind() {
        io::ErrorKind::InvalidData => Status::Words,
        _ => Status::Memory,
    }
}
