//! Bytes that go.
ghost use Rattle.std.specs.Prelude.{◌≡◌, ℕ, ◌+◌, ◌<◌, ◌≤◌, min, List, [], ◌++◌, length, take, drop, Option, Some, None, OnErr, IsTrue, IsFalse};
ghost use Rattle.byte_ports.specs.Streams.{after, Rose, IfTook, OnNotTook, OnWriteFailed, OnWriteNotFailed, OnAll, OnCutOff, OnNotCutOff};
ghost use Rattle.byte_ports.specs.Memory.{next_count, is_failing};

use crate::NoMemory;

/// What a write answered.
#[derive(Clone, Copy, Debug, PartialEq, Eq)]
pub enum Gave {
    /// So many bytes of the piece's front went.
    Took(usize),
    /// A fault: the count of faults rose, and nothing went.
    Failed,
}

/// A place to which bytes are written in order.
pub trait Sink {
    /// What was written so far, where that is told.
    ghost told: { Self → Option (List ℕ) };

    /// How many faults there were.
    ghost faults: { Self → ℕ };

    /// Writes some of the piece's front; the piece must not be empty.
    fn write(&mut self, piece: &[u8]) -> Result<Gave, NoMemory>
        requires { 0 < length piece.now }
        ensures some { IfTook result (λ count. 0 < count) }
        ensures fits { IfTook result (λ count. count ≤ length piece.now) }
        ensures went { IfTook result (λ count. told self.new ≡ after (told self.old) (take count piece.now)) }
        ensures same { OnNotTook result (told self.new ≡ told self.old) }
        ensures rose { OnWriteFailed result (Rose (faults self.old) (faults self.new)) }
        ensures count { OnWriteNotFailed result (faults self.new ≡ faults self.old) };
}

/// What the writing of a whole text answered.
#[derive(Clone, Copy, Debug, PartialEq, Eq)]
pub enum Wrote {
    /// Every byte went.
    All,
    /// A fault: the count of faults rose, and a front of the bytes went.
    Failed,
}

/// Writes all of the bytes, or a front of them.
pub fn write_all<W: Sink>(sink: &mut W, bytes: &[u8]) -> Result<Wrote, NoMemory>
    ensures all { OnAll result (W.told sink.new ≡ after (W.told sink.old) bytes.now) }
    ensures front { (count : ℕ) × (W.told sink.new ≡ after (W.told sink.old) (take count bytes.now)) }
    ensures rose { OnCutOff result (Rose (W.faults sink.old) (W.faults sink.new)) }
    ensures count { OnNotCutOff result (W.faults sink.new ≡ W.faults sink.old) }
{
    let mut at = 0;
    while at < bytes.len() {
        match sink.write(&bytes[at..])? {
            Gave::Took(count) => {
                at += count;
            }
            Gave::Failed => return Ok(Wrote::Failed),
        }
    }
    Ok(Wrote::All)
}

/// What is written is kept in memory. The calls of `write` with the numbers in `fails`, from 1,
/// fail: such a call raises the counts of calls and of faults, and changes nothing else.
#[derive(Drop)]
pub struct MemorySink {
    /// All bytes that were written, in order.
    pub bytes: Vec<u8>,
    /// How many bytes are taken at a time at the most, at least 1.
    pub most: usize,
    /// The numbers of the calls that fail, from 1.
    pub fails: Vec<u64>,
    /// How many calls there were.
    pub calls: u64,
    /// How many calls failed.
    pub fault_count: u64,
    pub ghost some: { 0 < most },
}

impl MemorySink {
    /// One that holds these bytes and takes at most so many at a time, at least 1.
    pub fn new(bytes: Vec<u8>, most: usize, fails: Vec<u64>) -> MemorySink
        requires { 0 < most }
        ensures bytes { result.bytes.items ≡ bytes.items }
        ensures most { result.most ≡ most }
        ensures fails { result.fails.items ≡ fails.items }
        ensures calls { result.calls ≡ 0 }
        ensures faults { result.fault_count ≡ 0 }
    {
        MemorySink {
            bytes,
            most,
            fails,
            calls: 0,
            fault_count: 0,
        }
    }

    /// All bytes that were written, in order.
    pub fn bytes(&self) -> &[u8]
        ensures { result.now ≡ self.now.bytes.items }
    {
        self.bytes.as_slice()
    }
}

impl Sink for MemorySink {
    ghost told = { λ s. Some s.bytes.items };

    ghost faults = { λ s. s.fault_count };

    /// Takes as many bytes as `most` says, or all where they are fewer. Where memory is refused,
    /// the call is counted and nothing else changes.
    fn write(&mut self, piece: &[u8]) -> Result<Gave, NoMemory>
        requires { 0 < length piece.now }
        ensures some { IfTook result (λ count. 0 < count) }
        ensures fits { IfTook result (λ count. count ≤ length piece.now) }
        ensures went { IfTook result (λ count. Some self.new.bytes.items
            ≡ after (Some self.old.bytes.items) (take count piece.now)) }
        ensures same { OnNotTook result (Some self.new.bytes.items ≡ Some self.old.bytes.items) }
        ensures rose { OnWriteFailed result (Rose self.old.fault_count self.new.fault_count) }
        ensures count { OnWriteNotFailed result (self.new.fault_count ≡ self.old.fault_count) }

        // When it fails, and how many bytes it takes otherwise.
        ensures fails { OnWriteFailed result
            (IsTrue (is_failing self.old.fails.items self.old.calls)) }
        ensures fails_not { OnWriteNotFailed result
            (IsFalse (is_failing self.old.fails.items self.old.calls)) }
        ensures piece { IfTook result (λ count. count ≡ min self.old.most (length piece.now)) }

        // A failed call raises its counts and changes nothing else.
        ensures only { OnWriteFailed result (self.new ≡ record self.old
            { calls = next_count self.old.calls; fault_count = next_count self.old.fault_count }) }
        ensures calls { self.new.calls ≡ next_count self.old.calls }
        ensures same_most { self.new.most ≡ self.old.most }
        ensures same_fails { self.new.fails ≡ self.old.fails }
    {
        self.calls = self.calls.saturating_add(1);
        if self.fails.as_slice().contains(&self.calls) {
            self.fault_count = self.fault_count.saturating_add(1);
            return Ok(Gave::Failed);
        }
        let count = self.most.min(piece.len());
        self.bytes.extend_from_slice(&piece[..count])?;
        Ok(Gave::Took(count))
    }
}

/// What is written is kept in memory. It never fails, and takes each piece whole.
#[derive(Drop)]
pub struct SureSink {
    /// All bytes that were written, in order.
    pub bytes: Vec<u8>,
}

impl SureSink {
    /// One that holds these bytes.
    pub fn new(bytes: Vec<u8>) -> SureSink
        ensures { result.bytes.items ≡ bytes.items }
    {
        SureSink { bytes }
    }

    /// All bytes that were written, in order.
    pub fn bytes(&self) -> &[u8]
        ensures { result.now ≡ self.now.bytes.items }
    {
        self.bytes.as_slice()
    }
}

impl Sink for SureSink {
    ghost told = { λ s. Some s.bytes.items };

    ghost faults = { λ _. 0 };

    fn write(&mut self, piece: &[u8]) -> Result<Gave, NoMemory>
        requires { 0 < length piece.now }
        ensures some { IfTook result (λ count. 0 < count) }
        ensures went { IfTook result (λ count. Some self.new.bytes.items
            ≡ after (Some self.old.bytes.items) (take count piece.now)) }
        ensures same { OnNotTook result (Some self.new.bytes.items ≡ Some self.old.bytes.items) }
        ensures sure { OnWriteFailed result ⊥ }
        ensures whole { IfTook result (λ count. count ≡ length piece.now) }
    {
        self.bytes.extend_from_slice(piece)?;
        Ok(Gave::Took(piece.len()))
    }
}
