//! Files on disk as a shelf.

ghost use Rattle.std.specs.Prelude.{◌≡◌, ◌+◌, ◌≤◌, ◌++◌, Option, None, length, IfOk, IfErr, IfSome, OnOk};
ghost use Rattle.std.specs.IoError.{error_kind};
ghost use Rattle.qp_base.specs.DirShelf.{FaultCounts, fault_of};
ghost use Rattle.qp_base.specs.Limits.{file_limit};
ghost use Rattle.qp_base.specs.Shelf.{IsBeyondAt, KeepsLimit};

use crate::shelves::{FILE_LIMIT, Shelf, ShelfFault};
use std::alloc::Global;
use std::fs::OpenFile;
use std::io::{ErrorKind, Read};
use std::marker::Model;
use std::{fs, io};

/// How many bytes one read asks for.
const PIECE: usize = 16384;

/// The files of the system by their paths, read from where the program runs. It doesn't tell what it holds.
/// Contracts see its counts.
#[derive(Drop)]
pub struct DirShelf {
    rt: HostRuntime,
    faults: u64,
    misses: u64,
}

impl Model for DirShelf {
    ghost use Rattle.std.specs.IoError.{error_kind};
    ghost use Rattle.qp_base.specs.DirShelf.{FaultCounts, fault_of};
    ghost use Rattle.qp_base.specs.Limits.{file_limit};

    ghost Value = { FaultCounts };

    ghost view = { λ s. record { faults = s.faults; misses = s.misses } };
}

impl DirShelf {
    /// The shelf of this runtime's files.
    pub fn new(rt: &HostRuntime) -> DirShelf
        ensures faults { result.faults ≡ 0 }
        ensures misses { result.misses ≡ 0 }
    {
        DirShelf {
            rt: *rt,
            faults: 0,
            misses: 0,
        }
    }
}

impl Shelf for DirShelf {
    ghost holds = { λ _. None };

    ghost faults = { λ s. s.faults };

    ghost misses = { λ s. s.misses };

    fn load(&mut self, alloc: Global, name: &str) -> Result<Vec<u8>, ShelfFault> {
        let answer = read_file(&self.rt, alloc, name);
        match &answer {
            Err(ShelfFault::Failed) => self.faults = self.faults.saturating_add(1),
            Err(ShelfFault::Absent | ShelfFault::TooLong { .. }) => {
                self.misses = self.misses.saturating_add(1)
            }
            Ok(_) | Err(ShelfFault::Memory) => {}
        }
        answer
    }
}

/// Reads the file at this path as a whole.
fn read_file(rt: &HostRuntime, alloc: Global, path: &str) -> Result<Vec<u8>, ShelfFault>
    ensures { KeepsLimit result }
{
    let mut file = match fs::open(rt, path) {
        Ok(file) => file,
        Err(error) => return Err(fault_of(&error)),
    };
    let len = match file.metadata() {
        Ok(metadata) => metadata.len(),
        Err(error) => return Err(fault_of(&error)),
    };
    if len > FILE_LIMIT {
        return Err(ShelfFault::TooLong { len });
    }
    read_whole(alloc, &mut file)
}

/// Reads all that is left. A read that was interrupted is tried again.
fn read_whole<R: Read>(alloc: Global, reader: &mut R) -> Result<Vec<u8>, ShelfFault>
    ensures limit { KeepsLimit result }
    ensures whole { IfOk result (λ file. IfSome (R.remaining reader.old) (λ left. file.items ≡ left)) }
{
    let mut file = Vec::new(alloc);
    let mut piece = [0u8; PIECE];
    for _ in 0..u64::MAX {
        match reader.read(&mut piece) {
            Ok(0) => return Ok(file),
            Ok(taken) => add(&mut file, &piece[..taken])?,
            Err(error) if error.kind() == ErrorKind::Interrupted => {}
            Err(error) => return Err(fault_of(&error)),
        }
    }
    Err(ShelfFault::Failed)
}

/// Adds a piece to what was read, up to the limit.
fn add(file: &mut Vec<u8>, piece: &[u8]) -> Result<(), ShelfFault>
    requires { length file.old.items ≤ file_limit }
    ensures ok { OnOk result (file.new.items ≡ file.old.items ++ piece.now) }
    ensures limit { OnOk result (length file.new.items ≤ file_limit) }
    ensures err { IfErr result (IsBeyondAt (length file.old.items + length piece.now)) }
{
    let len = file.len() as u64 + piece.len() as u64;
    if len > FILE_LIMIT {
        return Err(ShelfFault::TooLong { len });
    }
    file.extend_from_slice(piece)
        .map_err(|_| ShelfFault::Memory)
}

/// What an error of the system means for a load.
fn fault_of(error: &io::Error) -> ShelfFault
    ensures { result ≡ fault_of (error_kind error.now) }
{
    match error.kind() {
        ErrorKind::NotFound | ErrorKind::NotADirectory => ShelfFault::Absent,
        ErrorKind::OutOfMemory => ShelfFault::Memory,
        _ => ShelfFault::Failed,
    }
}
