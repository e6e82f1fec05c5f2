//! Files that are fetched by their names.
ghost use Rattle.std.specs.Prelude.{◌≡◌, ℕ, ◌+◌, ◌<◌, ◌≤◌, List, [], ◌++◌, length, take, drop, Option, Some, None, IfOk, OnErr, IsTrue, IsFalse, IsSome, IsNone, ◌⊎◌};
ghost use Rattle.std.specs.Option.{option_map};
ghost use Rattle.std.specs.BTreeMap.{get_by_text};
ghost use Rattle.byte_ports.specs.Streams.{Rose};
ghost use Rattle.byte_ports.specs.Memory.{next_count, is_failing};
ghost use Rattle.byte_ports.specs.Shelves.{IfBytes, OnFetchFailed, OnFetchNotFailed};

use crate::NoMemory;
use std::alloc::Global;
use std::collections::BTreeMap;

/// How many bytes of a file are fetched at the most: one more than a page may have.
pub const FETCHED_BYTES: usize = 1_048_577;

/// What a fetch answered.
#[derive(Drop)]
pub enum Fetched {
    /// The file's first `FETCHED_BYTES` bytes, or all where it has fewer.
    Bytes(Vec<u8>),
    /// A fault: the count of faults rose.
    Failed,
}

/// Files by their names. No file is changed.
pub trait Shelf {
    /// What the file of that name contains, where that is told.
    ghost file: { Self → List ℕ → Option (List ℕ) };

    /// How many faults there were.
    ghost faults: { Self → ℕ };

    /// Fetches the file of this name.
    fn fetch(&mut self, alloc: Global, name: &str) -> Result<Fetched, NoMemory>
        ensures bytes { IfBytes result (λ bytes. (all : List ℕ) → file self.old name.now ≡ Some all → bytes ≡ take FETCHED_BYTES all) }
        ensures few { IfBytes result (λ bytes. length bytes ≤ FETCHED_BYTES) }
        ensures same { file self.new ≡ file self.old }
        ensures rose { OnFetchFailed result (Rose (faults self.old) (faults self.new)) }
        ensures count { OnFetchNotFailed result (faults self.new ≡ faults self.old) };
}

/// Files in memory. The calls of `fetch` with the numbers in `fails`, from 1, fail, and so does
/// each call for a name that is missing: it raises the counts of calls and of faults, and changes
/// nothing else.
#[derive(Drop)]
pub struct MemoryShelf {
    /// What each file contains, by its name.
    pub files: BTreeMap<String, Vec<u8>>,
    /// The numbers of the calls that fail, from 1, also where the name is there.
    pub fails: Vec<u64>,
    /// How many calls there were.
    pub calls: u64,
    /// How many calls failed.
    pub fault_count: u64,
}

impl MemoryShelf {
    /// One with these files.
    pub fn new(files: BTreeMap<String, Vec<u8>>, fails: Vec<u64>) -> MemoryShelf
        ensures files { result.files ≡ files }
        ensures fails { result.fails.items ≡ fails.items }
        ensures calls { result.calls ≡ 0 }
        ensures faults { result.fault_count ≡ 0 }
    {
        MemoryShelf {
            files,
            fails,
            calls: 0,
            fault_count: 0,
        }
    }
}

impl Shelf for MemoryShelf {
    ghost file = { λ s n. option_map (λ v. v.items) (get_by_text s.files n) };

    ghost faults = { λ s. s.fault_count };

    /// Where memory is refused, the call is counted and nothing else changes.
    fn fetch(&mut self, alloc: Global, name: &str) -> Result<Fetched, NoMemory>
        ensures bytes { IfBytes result (λ bytes. (all : List ℕ)
            → option_map (λ v. v.items) (get_by_text self.old.files name.now) ≡ Some all
            → bytes ≡ take FETCHED_BYTES all) }
        ensures few { IfBytes result (λ bytes. length bytes ≤ FETCHED_BYTES) }
        ensures rose { OnFetchFailed result (Rose self.old.fault_count self.new.fault_count) }

        // When it fails.
        ensures fails { IsFalse (is_failing self.old.fails.items self.old.calls)
            → OnFetchFailed result (IsNone (get_by_text self.old.files name.now)) }
        ensures fails_not { OnFetchNotFailed result
            (IsFalse (is_failing self.old.fails.items self.old.calls)) }
        ensures present { OnFetchNotFailed result (IsSome (get_by_text self.old.files name.now)) }

        // A failed call raises its counts and changes nothing else, and any other is only counted.
        ensures only_faults { OnFetchFailed result (self.new ≡ record self.old
            { calls = next_count self.old.calls; fault_count = next_count self.old.fault_count }) }
        ensures only_calls { OnFetchNotFailed result
            (self.new ≡ record self.old { calls = next_count self.old.calls }) }
    {
        self.calls = self.calls.saturating_add(1);
        if self.fails.as_slice().contains(&self.calls) {
            self.fault_count = self.fault_count.saturating_add(1);
            return Ok(Fetched::Failed);
        }
        match self.files.get(name) {
            Some(bytes) => {
                let all = bytes.as_slice();
                let count = FETCHED_BYTES.min(all.len());
                Ok(Fetched::Bytes(Vec::from_slice(alloc, &all[..count])?))
            }
            None => {
                self.fault_count = self.fault_count.saturating_add(1);
                Ok(Fetched::Failed)
            }
        }
    }
}
