//! The reader of requests.
ghost use Rattle.std.specs.Prelude.{◌≡◌, ◌<◌, [], length, IfOk};
ghost use Rattle.byte_ports.specs.Streams.{before};
ghost use Rattle.http_wire.specs.Bounds.{held_bytes};
ghost use Rattle.http_wire.specs.Outcomes.{IsUnfinished};
ghost use Rattle.http_wire.specs.Held.{WholeIs};
ghost use Rattle.http_wire.specs.Answers.{
  FrameSays,
  FrameStream,
  FrameCause,
  TakenFrom,
  ReadHolds,
  ReadOnce,
  ReadEnds,
  ReadCause,
  OnRead,
};
ghost use Rattle.http_wire.specs.Reading.{FrameReads};

use crate::bounds::{FIELD_ROOM, HELD_BYTES, READ_BYTES};
use crate::held::{Held, Whole, judge};
use crate::request::{Framed, Request};
use httparse::spans::{EMPTY_HEADER_SPAN, HeaderSpan};
use page_units::{NoMemory, Source, Took};
use std::alloc::Global;
use std::marker::Model;

/// Reads requests from a source. As a value it is the bytes that it holds: those that were read and
/// belong to no request that was answered.
#[derive(Drop)]
pub struct Frames {
    held: Vec<u8>,
    room: Vec<HeaderSpan>,
    alloc: Global,
}

impl Model for Frames {
    ghost use Rattle.std.specs.Prelude.{ℕ, ◌≤◌, List, length};
    ghost use Rattle.http_wire.specs.Bounds.{field_room, held_bytes};

    ghost Value = { List ℕ };

    ghost view = { λ frames. frames.held.items };

    // A head and a body at most are held, and there is room for the fields of a head.
    ghost invariant = { λ frames. (length frames.held.items ≤ held_bytes)
        × (field_room ≤ length frames.room.items) };
}

impl Frames {
    /// One that holds nothing.
    pub fn new(alloc: Global) -> Result<Frames, NoMemory>
        ensures { IfOk result (λ frames. frames ≡ []) }
    {
        Ok(Frames {
            held: Vec::new(alloc),
            room: vec![in alloc; EMPTY_HEADER_SPAN; FIELD_ROOM]?,
            alloc,
        })
    }

    /// What comes next of the source's bytes, however the source cuts them. It reads only while the
    /// bytes that it holds are an unfinished request. After anything but a request it is
    /// given up.
    pub fn next<S: Source>(&mut self, source: &mut S) -> Result<Framed, NoMemory>
        ensures says { FrameSays result (before self.old (S.left source.old))
            (before self.new (S.left source.new)) self.new }
        ensures stream { FrameStream result (before self.old (S.left source.old))
            (before self.new (S.left source.new)) }
        ensures cause { FrameCause result (S.faults source.old) (S.faults source.new) }
        ensures reads { FrameReads S.read_once result self.old source.old self.new source.new }
        // Where the bytes that it holds show the answer, it doesn't read.
        ensures quiet { ¬ (IsUnfinished self.old) → source.new ≡ source.old }
    {
        'reading: loop {
            match judge(self.held.as_slice(), self.room.as_mut_slice()) {
                Held::Whole(whole) => return Ok(Framed::Request(self.take(&whole)?)),
                Held::Refused(refusal) => return Ok(Framed::Refused(refusal)),
                Held::Unfinished => {}
            }
            match self.read_more(source)? {
                Took::Got(_) => {}
                Took::End => {
                    return Ok(if self.held.is_empty() {
                        Framed::End
                    } else {
                        Framed::Truncated
                    });
                }
                Took::Failed => return Ok(Framed::Failed),
            }
        }
    }

    /// Takes the request whose parts these are from the start of the bytes that are held.
    fn take(&mut self, whole: &Whole) -> Result<Request, NoMemory>
        requires { WholeIs self.old whole.now }
        ensures { IfOk result (λ request. TakenFrom self.old self.new request) }
    {
        let spans = whole.spans;
        let end = spans.len + whole.body_length;
        let bytes = self.held.as_slice();
        let method = Vec::from_slice(self.alloc, spans.method.of(bytes))?;
        let target = Vec::from_slice(self.alloc, spans.path.of(bytes))?;
        let body = Vec::from_slice(self.alloc, &bytes[spans.len..end])?;
        let rest = self.held.split_off(end)?;
        self.held = rest;
        Ok(Request {
            method,
            target,
            minor: spans.version,
            close: whole.close,
            body,
        })
    }

    /// Reads more bytes behind those that are held.
    fn read_more<S: Source>(&mut self, source: &mut S) -> Result<Took, NoMemory>
        requires { length self.old < held_bytes }
        ensures ahead { OnRead result (before self.new (S.left source.new)
            ≡ before self.old (S.left source.old)) }
        ensures holds { ReadHolds result self.old self.new }
        ensures once { ReadOnce S.read_once result source.old source.new }
        ensures ends { ReadEnds result (S.left source.new) }
        ensures cause { ReadCause result (S.faults source.old) (S.faults source.new) }
    {
        let mut piece = [0; READ_BYTES];
        let most = piece.len().min(HELD_BYTES - self.held.len());
        let took = source.read(&mut piece[..most]);
        if let Took::Got(count) = took {
            self.held.extend_from_slice(&piece[..count])?;
        }
        Ok(took)
    }
}
