//! Bytes that come.
ghost use Rattle.std.specs.Prelude.{◌≡◌, ℕ, ◌+◌, ◌-◌, ◌<◌, ◌≤◌, min, List, [], ◌++◌, length, take, drop, Option, Some, None, IsTrue, IsFalse};
ghost use Rattle.byte_ports.specs.Streams.{before, Rose, IfGot, OnEnd, OnFailed, OnNotFailed};
ghost use Rattle.byte_ports.specs.Memory.{next_count, is_failing, are_pieces, piece_length, left_from, MovesOn};
ghost use Rattle.byte_ports.specs.declared.source.Took.{Took};

/// What a read answered.
#[derive(Clone, Copy, Debug, PartialEq, Eq)]
pub enum Took {
    /// So many bytes came, at the front of the buffer.
    Got(usize),
    /// Nothing is left.
    End,
    /// A fault: the count of faults rose, and what is left stays.
    Failed,
}

/// Bytes that are read in order, in pieces of any length.
pub trait Source {
    /// What is left, where that is told.
    ghost left: { Self → Option (List ℕ) };

    /// How many faults there were.
    ghost faults: { Self → ℕ };

    /// What one read does: the source before it, its answer and the source after it. Each
    /// implementation tells as much of it as can be told; what is proved of every source is said
    /// in these steps.
    ghost read_once: { Self → Took → Self → Type 0 };

    /// Reads some of the bytes that are left into the front of the buffer, which must have room.
    fn read(&mut self, into: &mut [u8]) -> Took
        requires { 0 < length into.old }
        ensures some { IfGot result (λ count. 0 < count) }
        ensures fits { IfGot result (λ count. count ≤ length into.old) }
        ensures came { IfGot result (λ count. left self.old ≡ before (take count into.new) (left self.new)) }
        // Nothing is left, where that is told.
        ensures over { OnEnd result ((bytes : List ℕ) → left self.old ≡ Some bytes → bytes ≡ []) }
        ensures end { OnEnd result (left self.new ≡ left self.old) }
        ensures failed { OnFailed result (left self.new ≡ left self.old) }
        ensures rose { OnFailed result (Rose (faults self.old) (faults self.new)) }
        ensures count { OnNotFailed result (faults self.new ≡ faults self.old) }
        ensures once { read_once self.old result self.new };
}

/// Bytes in memory that come in pieces of given lengths. The calls of `read` with the numbers in
/// `fails`, from 1, fail: such a call raises the counts of calls and of faults, and changes nothing
/// else.
#[derive(Drop)]
pub struct MemorySource {
    /// All bytes, those that came too.
    pub bytes: Vec<u8>,
    /// How many bytes came, which are the first.
    pub at: usize,
    /// How many bytes each piece has, at least 1.
    pub pieces: Vec<usize>,
    /// How many reads gave bytes.
    pub given: usize,
    /// The numbers of the calls that fail, from 1.
    pub fails: Vec<u64>,
    /// How many calls there were.
    pub calls: u64,
    /// How many calls failed.
    pub fault_count: u64,
    pub ghost within: { at ≤ length bytes.items },
    pub ghost some: { IsTrue (are_pieces pieces.items) },
}

impl MemorySource {
    /// One whose first read of bytes gives as many as the first piece says, and so on: fewer where
    /// fewer are left or fit, and after the last piece as many as are left and fit. Each piece is
    /// at least 1.
    pub fn new(bytes: Vec<u8>, pieces: Vec<usize>, fails: Vec<u64>) -> MemorySource
        requires { IsTrue (are_pieces pieces.items) }
        ensures bytes { result.bytes.items ≡ bytes.items }
        ensures at { result.at ≡ 0 }
        ensures pieces { result.pieces.items ≡ pieces.items }
        ensures given { result.given ≡ 0 }
        ensures fails { result.fails.items ≡ fails.items }
        ensures calls { result.calls ≡ 0 }
        ensures faults { result.fault_count ≡ 0 }
    {
        MemorySource {
            bytes,
            at: 0,
            pieces,
            given: 0,
            fails,
            calls: 0,
            fault_count: 0,
        }
    }

    /// How many bytes the next read gives where it could give so many.
    fn piece(&self, most: usize) -> usize
        requires { 0 < most }
        ensures some { 0 < result }
        ensures value { result ≡ piece_length self.now.pieces.items self.now.given most }
    {
        match self.pieces.get(self.given) {
            Some(piece) => most.min(*piece),
            None => most,
        }
    }
}

impl Source for MemorySource {
    ghost left = { λ s. left_from s.bytes.items s.at };

    ghost faults = { λ s. s.fault_count };

    ghost read_once = { λ old took new.
        (new.calls ≡ next_count old.calls) × MovesOn took old.at new.at };

    fn read(&mut self, into: &mut [u8]) -> Took
        requires { 0 < length into.old }
        ensures some { IfGot result (λ count. 0 < count) }
        ensures fits { IfGot result (λ count. count ≤ length into.old) }
        ensures came { IfGot result (λ count. left_from self.old.bytes.items self.old.at
            ≡ before (take count into.new) (left_from self.new.bytes.items self.new.at)) }
        ensures over { OnEnd result (drop self.old.at self.old.bytes.items ≡ []) }
        ensures rose { OnFailed result (Rose self.old.fault_count self.new.fault_count) }
        ensures count { OnNotFailed result (self.new.fault_count ≡ self.old.fault_count) }
        ensures once { (self.new.calls ≡ next_count self.old.calls)
            × MovesOn result self.old.at self.new.at }

        // When it fails, and how many bytes it gives otherwise.
        ensures fails { OnFailed result (IsTrue (is_failing self.old.fails.items self.old.calls)) }
        ensures fails_not { OnNotFailed result
            (IsFalse (is_failing self.old.fails.items self.old.calls)) }
        ensures piece { let rest = length self.old.bytes.items - self.old.at in
            IfGot result (λ count. count
            ≡ piece_length self.old.pieces.items self.old.given (min rest (length into.old))) }

        // A failed call raises its counts and changes nothing else; one at the end is only counted.
        ensures nothing { OnFailed result (into.new ≡ into.old) }
        ensures only_faults { OnFailed result (self.new ≡ record self.old
            { calls = next_count self.old.calls; fault_count = next_count self.old.fault_count }) }
        ensures only_calls { OnEnd result
            (self.new ≡ record self.old { calls = next_count self.old.calls }) }
        ensures calls { self.new.calls ≡ next_count self.old.calls }
        ensures given { IfGot result (λ _. self.new.given ≡ next_count self.old.given) }
        ensures same_bytes { self.new.bytes ≡ self.old.bytes }
        ensures same_pieces { self.new.pieces ≡ self.old.pieces }
        ensures same_fails { self.new.fails ≡ self.old.fails }
    {
        self.calls = self.calls.saturating_add(1);
        if self.fails.as_slice().contains(&self.calls) {
            self.fault_count = self.fault_count.saturating_add(1);
            return Took::Failed;
        }
        let rest = self.bytes.len() - self.at;
        if rest == 0 {
            return Took::End;
        }
        let count = self.piece(rest.min(into.len()));
        self.given = self.given.saturating_add(1);
        let from = self.at;
        let bytes = self.bytes.as_slice();
        into[..count].copy_from_slice(&bytes[from..from + count]);
        self.at += count;
        Took::Got(count)
    }
}

/// Bytes in memory that never fail: a read gives as many as are left and fit.
#[derive(Drop)]
pub struct SureSource {
    /// All bytes, those that came too.
    pub bytes: Vec<u8>,
    /// How many bytes came, which are the first.
    pub at: usize,
    pub ghost within: { at ≤ length bytes.items },
}

impl SureSource {
    /// One whose bytes are all left.
    pub fn new(bytes: Vec<u8>) -> SureSource
        ensures bytes { result.bytes.items ≡ bytes.items }
        ensures at { result.at ≡ 0 }
    {
        SureSource { bytes, at: 0 }
    }
}

impl Source for SureSource {
    ghost left = { λ s. left_from s.bytes.items s.at };

    ghost faults = { λ _. 0 };

    ghost read_once = { λ old took new. MovesOn took old.at new.at };

    fn read(&mut self, into: &mut [u8]) -> Took
        requires { 0 < length into.old }
        ensures some { IfGot result (λ count. 0 < count) }
        ensures fits { IfGot result (λ count. count ≤ length into.old) }
        ensures came { IfGot result (λ count. left_from self.old.bytes.items self.old.at
            ≡ before (take count into.new) (left_from self.new.bytes.items self.new.at)) }
        ensures over { OnEnd result (drop self.old.at self.old.bytes.items ≡ []) }
        ensures sure { OnFailed result ⊥ }
        ensures once { MovesOn result self.old.at self.new.at }
        ensures piece { let rest = length self.old.bytes.items - self.old.at in
            IfGot result (λ count. count ≡ min rest (length into.old)) }
        ensures end { OnEnd result (self.new ≡ self.old) }
        ensures same_bytes { self.new.bytes ≡ self.old.bytes }
    {
        let rest = self.bytes.len() - self.at;
        if rest == 0 {
            return Took::End;
        }
        let count = rest.min(into.len());
        let from = self.at;
        let bytes = self.bytes.as_slice();
        into[..count].copy_from_slice(&bytes[from..from + count]);
        self.at = from + count;
        Took::Got(count)
    }
}
