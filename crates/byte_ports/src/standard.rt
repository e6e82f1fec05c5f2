//! The outside as the runtime gives it. What a stream or a file contains is not told.
ghost use Rattle.std.specs.Prelude.{◌≡◌, ℕ, ◌<◌, ◌≤◌, List, [], length, take, None, IfOk, IsOk, ⊤};
ghost use Rattle.std.specs.Io.KnownBytes.{Keeps, Appends, Consumes, IsAtEnd};
ghost use Rattle.byte_ports.specs.Memory.{next_count};
ghost use Rattle.byte_ports.specs.Streams.{before, after, Rose, IfGot, OnEnd, OnFailed, OnNotFailed, IfTook, OnNotTook, OnWriteFailed, OnWriteNotFailed};
ghost use Rattle.byte_ports.specs.Shelves.{IfBytes, OnFetchFailed, OnFetchNotFailed};

use crate::NoMemory;
use crate::shelf::{FETCHED_BYTES, Fetched, Shelf};
use crate::sink::{Gave, Sink};
use crate::source::{Source, Took};
use std::alloc::{AllocError, Global};
use std::io::{Read, Write};
use std::rt::Files;
use std::{fs, io};

/// The bytes of a reader, as of standard input: `StdSource::new(rt.stdin())`.
#[derive(Drop)]
pub struct StdSource<R> {
    /// The reader, of which each read is one read.
    pub reader: R,
    /// How many reads failed.
    pub fault_count: u64,
}

impl<R> StdSource<R> {
    /// One over this reader.
    pub fn new(reader: R) -> StdSource<R>
        ensures reader { result.reader ≡ reader }
        ensures faults { result.fault_count ≡ 0 }
    {
        StdSource {
            reader,
            fault_count: 0,
        }
    }
}

impl<R: Read> Source for StdSource<R> {
    ghost left = { λ _. None };

    ghost faults = { λ s. s.fault_count };

    // What a read gives and leaves is the reader's own matter.
    ghost read_once = { λ _ _ _. ⊤ };

    /// Reads once. Each error of the reader is a fault, an interrupted read too.
    fn read(&mut self, into: &mut [u8]) -> Took
        requires { 0 < length into.old }
        ensures some { IfGot result (λ count. 0 < count) }
        ensures fits { IfGot result (λ count. count ≤ length into.old) }
        ensures rose { OnFailed result (Rose self.old.fault_count self.new.fault_count) }
        ensures count { OnNotFailed result (self.new.fault_count ≡ self.old.fault_count) }

        // What the reader is known to have left.
        ensures came { let lost = Consumes (R.remaining self.old.reader) (R.remaining self.new.reader) in
            IfGot result (λ count. lost (take count into.new)) }
        ensures over { OnEnd result (IsAtEnd (R.remaining self.new.reader)) }
        ensures kept { OnFailed result
            (Keeps (R.remaining self.old.reader) (R.remaining self.new.reader)) }
    {
        match self.reader.read(into) {
            Ok(0) => Took::End,
            Ok(count) => Took::Got(count),
            Err(_) => {
                self.fault_count = self.fault_count.saturating_add(1);
                Took::Failed
            }
        }
    }
}

/// A writer, as standard output: `StdSink::new(rt.stdout())`.
#[derive(Drop)]
pub struct StdSink<W> {
    /// The writer, which is flushed after each write.
    pub writer: W,
    /// How many writes failed.
    pub fault_count: u64,
}

impl<W> StdSink<W> {
    /// One over this writer.
    pub fn new(writer: W) -> StdSink<W>
        ensures writer { result.writer ≡ writer }
        ensures faults { result.fault_count ≡ 0 }
    {
        StdSink {
            writer,
            fault_count: 0,
        }
    }
}

impl<W: Write> Sink for StdSink<W> {
    ghost told = { λ _. None };

    ghost faults = { λ s. s.fault_count };

    /// Writes once, and flushes what it wrote. Each error of the writer is a fault, an interrupted
    /// write too, and so is a write that takes nothing. Where the flush fails, the writer may still
    /// hold what it took. It is never out of memory.
    fn write(&mut self, piece: &[u8]) -> Result<Gave, NoMemory>
        requires { 0 < length piece.now }
        ensures some { IfTook result (λ count. 0 < count) }
        ensures fits { IfTook result (λ count. count ≤ length piece.now) }
        ensures rose { OnWriteFailed result (Rose self.old.fault_count self.new.fault_count) }
        ensures count { OnWriteNotFailed result (self.new.fault_count ≡ self.old.fault_count) }
        ensures no_memory_asked { IsOk result }

        // What the writer is known to hold, after a fault too.
        ensures went { let grew = Appends (W.contents self.old.writer) (W.contents self.new.writer) in
            IfTook result (λ count. grew (take count piece.now)) }
        ensures front { let grew = Appends (W.contents self.old.writer) (W.contents self.new.writer) in
            (count : ℕ) × grew (take count piece.now) }
    {
        match write_through(&mut self.writer, piece) {
            Ok(count) if count > 0 => Ok(Gave::Took(count)),
            _ => {
                self.fault_count = self.fault_count.saturating_add(1);
                Ok(Gave::Failed)
            }
        }
    }
}

/// Writes once and flushes.
fn write_through<W: Write>(writer: &mut W, piece: &[u8]) -> io::Result<usize>
    ensures fits { IfOk result (λ count. count ≤ length piece.now) }
    ensures went { IfOk result (λ count.
        Appends (W.contents writer.old) (W.contents writer.new) (take count piece.now)) }
    ensures front { (count : ℕ)
        × Appends (W.contents writer.old) (W.contents writer.new) (take count piece.now) }
{
    let count = writer.write(piece)?;
    writer.flush()?;
    Ok(count)
}

/// The files of the runtime, by their paths: `FileShelf::new(rt)`.
#[derive(Drop)]
pub struct FileShelf<R> {
    /// The runtime, or what stands for its files.
    pub files: R,
    /// How many fetches failed.
    pub fault_count: u64,
}

impl<R> FileShelf<R> {
    /// One over these files.
    pub fn new(files: R) -> FileShelf<R>
        ensures files { result.files ≡ files }
        ensures faults { result.fault_count ≡ 0 }
    {
        FileShelf {
            files,
            fault_count: 0,
        }
    }
}

impl<R: Files> Shelf for FileShelf<R> {
    ghost file = { λ _ _. None };

    ghost faults = { λ s. s.fault_count };

    /// Each error of the runtime is a fault, as that of a file that is missing, is a directory or
    /// may not be read. Where memory was refused it answers `Err`, and counts no fault.
    fn fetch(&mut self, alloc: Global, name: &str) -> Result<Fetched, NoMemory> {
        match front_of(&self.files, alloc, name) {
            Ok(bytes) => Ok(Fetched::Bytes(bytes)),
            Err(error) if error.kind() == io::ErrorKind::OutOfMemory => Err(AllocError),
            Err(_) => {
                self.fault_count = self.fault_count.saturating_add(1);
                Ok(Fetched::Failed)
            }
        }
    }
}

/// The file's first `FETCHED_BYTES` bytes, or all where it has fewer.
fn front_of<R: Files>(files: &R, alloc: Global, name: &str) -> io::Result<Vec<u8>>
    ensures { IfOk result (λ bytes. length bytes.items ≤ FETCHED_BYTES) }
{
    let mut bytes = Vec::new(alloc);
    fs::open(files, name)?
        .take(FETCHED_BYTES as u64)
        .read_to_end(&mut bytes)?;
    // No longer than asked, whatever the reader does.
    bytes.truncate(FETCHED_BYTES);
    Ok(bytes)
}
