//! The reader of requests and of what they ask.
ghost use Rattle.std.specs.Prelude.{◌≡◌, [], IfOk};
ghost use Rattle.byte_ports.specs.Streams.{before};
ghost use Rattle.http_wire.specs.Outcomes.{IsUnfinished};
ghost use Rattle.http_wire.specs.Incoming.{incoming_of};
ghost use Rattle.http_wire.specs.Messages.{message_of};
ghost use Rattle.http_wire.specs.Wired.{NextSays, NextStream, NextWhole, NextCause, NextReads};

use crate::framing::Frames;
use crate::request::{Framed, Request};
use page_units::{NoMemory, Source};
use std::alloc::Global;
use std::marker::Model;
use wire_asks::{Asked, Refusal, Routes, ends_connection};

/// A request that came: what it asks, or why it is refused.
#[derive(Drop)]
pub struct Incoming {
    /// What it asks; never the refusal that no element has an id.
    pub asked: Result<Asked, Refusal>,
    /// The connection ends after its reply: the request says so (RFC 9112, 9.6), it is a `/halt`, or
    /// its refusal closes.
    pub close: bool,
}

/// What comes next of a stream.
#[derive(Drop)]
pub enum Next {
    /// A request, whole or refused.
    Request(Incoming),
    /// The stream ended between two requests.
    End,
    /// The stream ended inside a request.
    Truncated,
    /// A read failed: the source's count of faults rose.
    Failed,
}

/// Reads requests from a source. As a value it is the bytes that it holds: those that were read and
/// belong to no request that was answered.
#[derive(Drop)]
pub struct Wire {
    frames: Frames,
    routes: Routes,
    alloc: Global,
}

impl Model for Wire {
    ghost use Rattle.std.specs.Prelude.{ℕ, List};

    ghost Value = { List ℕ };

    ghost view = { λ wire. wire.frames };
}

impl Wire {
    /// A wire that holds nothing.
    pub fn new(alloc: Global) -> Result<Wire, NoMemory>
        ensures { IfOk result (λ wire. wire ≡ []) }
    {
        Ok(Wire {
            frames: Frames::new(alloc)?,
            routes: Routes::new(alloc)?,
            alloc,
        })
    }

    /// What comes next of the source's bytes, however the source cuts them. It reads only while the
    /// bytes that it holds are an unfinished request. The wire is given up after an end, a fault, an
    /// error (memory was refused) and a request that closes.
    pub fn next<S: Source>(&mut self, source: &mut S) -> Result<Next, NoMemory>
        ensures says { NextSays result (before self.old (S.left source.old))
            (before self.new (S.left source.new)) self.new }
        ensures stream { NextStream result (before self.old (S.left source.old))
            (before self.new (S.left source.new)) }
        ensures whole { NextWhole result (before self.old (S.left source.old))
            (before self.new (S.left source.new)) }
        ensures cause { NextCause result (S.faults source.old) (S.faults source.new) }
        ensures reads { NextReads S.read_once result self.old source.old self.new source.new }
        // Where the bytes that it holds show the answer, it doesn't read.
        ensures quiet { ¬ (IsUnfinished self.old) → source.new ≡ source.old }
    {
        Ok(match self.frames.next(source)? {
            Framed::Request(request) => Next::Request(self.incoming(&request)?),
            Framed::Refused(refusal) => Next::Request(Incoming {
                asked: Err(refusal),
                close: refusal.closes(),
            }),
            Framed::End => Next::End,
            Framed::Truncated => Next::Truncated,
            Framed::Failed => Next::Failed,
        })
    }

    /// What a request asks.
    fn incoming(&self, request: &Request) -> Result<Incoming, NoMemory>
        ensures { IfOk result (λ incoming. incoming ≡ incoming_of (message_of request.now)) }
    {
        let asked = self.routes.asked(
            self.alloc,
            request.method.as_slice(),
            request.target.as_slice(),
            request.body.as_slice(),
        )?;
        let close = request.close || ends_connection(&asked);
        Ok(Incoming { asked, close })
    }
}
