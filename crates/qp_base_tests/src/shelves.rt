//! Shelves: files in memory and on disk.

use arrayvec::ArrayString;
use qp_base::{DirShelf, FILE_LIMIT, MemShelf, Shelf, ShelfFault};
use std::alloc::{AllocError, Global};
use std::test::Fail;
use std::{env, fs, process};

/// What one load answers: the bytes of the file, or the fault.
fn answer<S: Shelf>(
    shelf: &mut S,
    alloc: Global,
    name: &str,
    want: Result<&[u8], ShelfFault>,
) -> bool {
    match (shelf.load(alloc, name), want) {
        (Ok(file), Ok(bytes)) => file.as_slice() == bytes,
        (Err(fault), Err(wanted)) => fault == wanted,
        _ => false,
    }
}

fn file(alloc: Global, name: &str, bytes: &[u8]) -> Result<(ArrayString<24>, Vec<u8>), AllocError> {
    let name = ArrayString::from(name).unwrap_or_default();
    Ok((name, Vec::from_slice(alloc, bytes)?))
}

/// A shelf with two files, one of which stands twice. Load 1 fails.
fn two_files(alloc: Global) -> Result<MemShelf, AllocError> {
    let named: [(&str, &[u8]); 3] = [("a", b"first"), ("a", b"second"), ("b", b"")];
    let mut files = Vec::new(alloc);
    for (name, bytes) in named {
        files.push(file(alloc, name, bytes)?)?;
    }
    Ok(MemShelf::new(files, Vec::from_slice(alloc, &[1])?))
}

/// What the loads of a shelf in memory answer, one after another. The first pair of a name counts, and load 1 fails.
const LOADS: [(&str, Result<&[u8], ShelfFault>); 4] = [
    ("a", Ok(b"first")),
    ("a", Err(ShelfFault::Failed)),
    ("c", Err(ShelfFault::Absent)),
    ("b", Ok(b"")),
];

/// The first load that answers something else.
fn first_wrong(alloc: Global, shelf: &mut MemShelf) -> Option<usize> {
    for (i, (name, want)) in LOADS.iter().enumerate() {
        if !answer(shelf, alloc, name, *want) {
            return Some(i);
        }
    }
    None
}

#[test]
fn a_shelf_in_memory_loads_what_it_holds(rt: HostRuntime) {
    let Ok(mut shelf) = two_files(rt.alloc()) else {
        assert!(rt; false, "no memory");
        return;
    };
    let wrong = first_wrong(rt.alloc(), &mut shelf);
    assert!(rt; wrong.is_none(), "load {wrong:?}");
}

/// How a file of so many bytes in memory is loaded: its length, or the fault.
fn loaded(alloc: Global, len: usize) -> Option<Result<usize, ShelfFault>> {
    let bytes = vec![in alloc; 0u8; len].ok()?;
    let mut files = Vec::new(alloc);
    files
        .push((ArrayString::from("long").unwrap_or_default(), bytes))
        .ok()?;
    let mut shelf = MemShelf::new(files, Vec::new(alloc));
    Some(match shelf.load(alloc, "long") {
        Ok(file) => Ok(file.len()),
        Err(fault) => Err(fault),
    })
}

#[test]
fn a_file_beyond_the_limit_is_too_long(rt: HostRuntime) {
    assert!(rt; FILE_LIMIT == 67108864);
    assert!(rt; loaded(rt.alloc(), 67108864) == Some(Ok(67108864)));
    let too_long = ShelfFault::TooLong { len: 67108865 };
    assert!(rt; loaded(rt.alloc(), 67108865) == Some(Err(too_long)));
}

/// A path of this process alone, in the folder for files of no lasting use.
fn path(rt: &HostRuntime, before: &str, behind: &str) -> Result<String, Fail> {
    let folder = env::temp_dir(rt)?;
    let folder = folder.to_str().unwrap_or("");
    let id = process::id(rt.process());
    Ok(format!(in rt.alloc(); "{folder}/{before}{id}{behind}")?)
}

/// Whether a file is absent, and once it was written is loaded as it is.
fn is_loaded(rt: &HostRuntime, path: &str) -> Result<bool, Fail> {
    let alloc = rt.alloc();
    let mut shelf = DirShelf::new(rt);
    let was_absent = answer(&mut shelf, alloc, path, Err(ShelfFault::Absent));
    fs::write(rt, path, path)?;
    let is_loaded = answer(&mut shelf, alloc, path, Ok(path.as_bytes()));
    fs::remove_file(rt, path)?;
    Ok(was_absent && is_loaded)
}

/// Whether a file of this name, in the folder for files of no lasting use, is loaded.
fn is_loaded_from(rt: &HostRuntime, before: &str, behind: &str) -> Result<bool, Fail> {
    let path = path(rt, before, behind)?;
    is_loaded(rt, path.as_str())
}

/// Whether a path of more than 300 bytes is taken.
fn takes_a_long_path(rt: &HostRuntime) -> Result<bool, Fail> {
    let padding = "./".repeat(rt.alloc(), 150)?;
    is_loaded_from(rt, padding.as_str(), "_long")
}

/// Whether a folder is no file.
fn refuses_a_folder(rt: &HostRuntime) -> Result<bool, Fail> {
    let folder = env::temp_dir(rt)?;
    let mut shelf = DirShelf::new(rt);
    let folder = folder.to_str().unwrap_or("");
    Ok(answer(&mut shelf, rt.alloc(), folder, Err(ShelfFault::Failed)))
}

/// Whether the length of a file on disk of so many bytes is told, which are too many.
fn is_told(rt: &HostRuntime, path: &str, len: u64) -> Result<bool, Fail> {
    let file = fs::create(rt, path)?;
    file.set_len(len)?;
    let mut shelf = DirShelf::new(rt);
    let too_long = ShelfFault::TooLong { len };
    Ok(answer(&mut shelf, rt.alloc(), path, Err(too_long)))
}

/// Whether the length of a long file is told.
fn tells_lengths(rt: &HostRuntime) -> Result<bool, Fail> {
    let path = path(rt, "qp_base_", "_limit")?;
    let are_told = is_told(rt, path.as_str(), 67108865)? && is_told(rt, path.as_str(), 67109000)?;
    fs::remove_file(rt, path.as_str())?;
    Ok(are_told)
}

/// A shelf on disk takes a path as it is.
#[test]
fn a_shelf_on_disk_takes_paths(rt: HostRuntime) -> Result<(), Fail> {
    for (before, behind) in &[("qp_base_", ".txt"), ("qp base ", ""), ("qp_base_", " ")] {
        assert!(rt; is_loaded_from(&rt, before, behind)?, "{before}{behind}");
    }
    assert!(rt; takes_a_long_path(&rt)?);
    assert!(rt; refuses_a_folder(&rt)?);
    assert!(rt; tells_lengths(&rt)?);
    Ok(())
}
