//! Shelves in memory and of files.
use crate::told::{push_bytes, push_count, push_word};
use page_units::{Fetched, FileShelf, MemoryShelf, Shelf};
use std::alloc::{AllocError, Global};
use std::collections::BTreeMap;

/// What fetches of these names give from a shelf of two files whose second call fails, and how many faults there were.
pub fn memory(alloc: Global, names: &[String]) -> Result<String, AllocError> {
    let files = two_files(alloc)?;
    let mut shelf = MemoryShelf::new(files, vec![in alloc; 2]?);
    let mut told = String::new(alloc);
    for name in names {
        push_file(&mut told, shelf.fetch(alloc, name.as_str())?)?;
    }
    push_count(&mut told, shelf.fault_count)?;
    Ok(told)
}

/// `a`, which contains `xyz`, and `b`, which is empty.
fn two_files(alloc: Global) -> Result<BTreeMap<String, Vec<u8>>, AllocError> {
    let mut files = BTreeMap::new(alloc);
    insert(&mut files, alloc, "a", b"xyz")?;
    insert(&mut files, alloc, "b", b"")?;
    Ok(files)
}

fn insert(
    files: &mut BTreeMap<String, Vec<u8>>,
    alloc: Global,
    name: &str,
    bytes: &[u8],
) -> Result<(), AllocError> {
    let name = String::from_str(alloc, name)?;
    let bytes = Vec::from_slice(alloc, bytes)?;
    files.insert(name, bytes)?;
    Ok(())
}

fn push_file(told: &mut String, fetched: Fetched) -> Result<(), AllocError> {
    match fetched {
        Fetched::Bytes(bytes) => push_bytes(told, &bytes),
        Fetched::Failed => push_word(told, "failed"),
    }
}

/// How many bytes fetches of these names give, and how many faults there were.
pub fn files(rt: HostRuntime, alloc: Global, names: &[String]) -> Result<String, AllocError> {
    let mut shelf = FileShelf::new(rt);
    let mut told = String::new(alloc);
    for name in names {
        push_length(&mut told, shelf.fetch(alloc, name.as_str())?)?;
    }
    push_count(&mut told, shelf.fault_count)?;
    Ok(told)
}

fn push_length(told: &mut String, fetched: Fetched) -> Result<(), AllocError> {
    match fetched {
        Fetched::Bytes(bytes) => push_count(told, bytes.len() as u64),
        Fetched::Failed => push_word(told, "failed"),
    }
}
