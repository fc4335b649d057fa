//! A shelf in memory.

ghost use Rattle.std.specs.Prelude.{◌≡◌, ◌≤◌, ◌==◌, ℕ, List, Option, Some, false, map};
ghost use Rattle.std.specs.Option.{option_copied};
ghost use Rattle.std.specs.List.{list_any};
ghost use Rattle.qp_base.specs.Counts.{CountsIf};
ghost use Rattle.qp_base.specs.MemShelf.{Shelved, after_load, fails, bytes_of_file};
ghost use Rattle.qp_base.specs.Shelf.{KeepsLimit, TellsOf, is_failed, is_missed};

use crate::shelves::{FILE_LIMIT, Shelf, ShelfFault};
use arrayvec::ArrayString;
use std::alloc::Global;
use std::marker::Model;

/// Files by name. Contracts see the list of the names with their bytes.
#[derive(Drop)]
struct Files {
    items: Vec<(ArrayString<24>, Vec<u8>)>,
}

impl Model for Files {
    ghost use Rattle.std.specs.Prelude.{List, ℕ, map};

    ghost Value = { List (List ℕ × List ℕ) };

    ghost view = { λ f. map (λ file. (file.0.bytes, file.1.items)) f.items.items };
}

impl Files {
    /// The bytes of the first file of this name.
    fn find(&self, name: &str) -> Option<&[u8]>
        ensures { option_copied result ≡ bytes_of_file self.now name.now }
    {
        for (held, bytes) in &self.items {
            if held.as_str() == name {
                return Some(bytes.as_slice());
            }
        }
        None
    }

    /// A copy of the first file of this name.
    fn copy(&self, alloc: Global, name: &str) -> Result<Vec<u8>, ShelfFault>
        ensures tells { TellsOf (bytes_of_file self.now name.now) result }
        ensures limit { KeepsLimit result }
        ensures works { is_failed result ≡ false }
    {
        let bytes = self.find(name).ok_or(ShelfFault::Absent)?;
        let len = bytes.len() as u64;
        if len > FILE_LIMIT {
            return Err(ShelfFault::TooLong { len });
        }
        Vec::from_slice(alloc, bytes).map_err(|_| ShelfFault::Memory)
    }
}

/// The numbers of calls. Contracts see the list.
#[derive(Drop)]
struct Numbers {
    items: Vec<u64>,
}

impl Model for Numbers {
    ghost use Rattle.std.specs.Prelude.{List, ℕ};

    ghost Value = { List ℕ };

    ghost view = { λ n. n.items.items };
}

impl Numbers {
    fn has(&self, number: u64) -> bool
        ensures { result ≡ list_any (λ n. n == number) self.now }
    {
        self.items.contains(&number)
    }
}

/// A shelf whose files lie in memory, with loads that fail on purpose. It tells what it holds.
#[derive(Drop)]
pub struct MemShelf {
    files: Files,
    failing: Numbers,
    loads: u64,
    faults: u64,
    misses: u64,
}

impl Model for MemShelf {
    ghost use Rattle.qp_base.specs.MemShelf.{Shelved};

    ghost Value = { Shelved };

    ghost view = { λ s. record { files = s.files; failing = s.failing; loads = s.loads; faults = s.faults; misses = s.misses } };
}

impl MemShelf {
    /// A shelf with these files, of which the first of a name counts. The loads whose numbers, from 0 on, are in
    /// `failing` fail.
    pub fn new(files: Vec<(ArrayString<24>, Vec<u8>)>, failing: Vec<u64>) -> MemShelf
        ensures files { result.files ≡ map (λ file. (file.0.bytes, file.1.items)) files.items }
        ensures failing { result.failing ≡ failing.items }
        ensures loads { result.loads ≡ 0 }
        ensures faults { result.faults ≡ 0 }
        ensures misses { result.misses ≡ 0 }
    {
        MemShelf {
            files: Files { items: files },
            failing: Numbers { items: failing },
            loads: 0,
            faults: 0,
            misses: 0,
        }
    }
}

impl Shelf for MemShelf {
    ghost holds = { λ s. Some (bytes_of_file s.files) };

    ghost faults = { λ s. s.faults };

    ghost misses = { λ s. s.misses };

    fn load(&mut self, alloc: Global, name: &str) -> Result<Vec<u8>, ShelfFault>
        ensures fails { is_failed result ≡ fails self.old }
        ensures after { self.new ≡ after_load self.old result }

        ensures tells { TellsOf (bytes_of_file self.old.files name.now) result }
        ensures limit { KeepsLimit result }
        ensures held { Some (bytes_of_file self.new.files) ≡ Some (bytes_of_file self.old.files) }

        ensures faults { CountsIf (is_failed result) self.old.faults self.new.faults }
        ensures faults_last { self.old.faults ≤ self.new.faults }
        ensures misses { CountsIf (is_missed result) self.old.misses self.new.misses }
        ensures misses_last { self.old.misses ≤ self.new.misses }
    {
        let number = self.loads;
        self.loads = number.saturating_add(1);
        if self.failing.has(number) {
            self.faults = self.faults.saturating_add(1);
            return Err(ShelfFault::Failed);
        }
        let answer = self.files.copy(alloc, name);
        if matches!(answer, Err(ShelfFault::Absent | ShelfFault::TooLong { .. })) {
            self.misses = self.misses.saturating_add(1);
        }
        answer
    }
}
