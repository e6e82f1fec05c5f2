//! A stream of requests, each answered.
ghost use Rattle.std.specs.Prelude.{◌≡◌, ◌≤◌, ◌+◌, ℕ, ◌++◌, List, [], Some, length};
ghost use Rattle.cell_places.specs.Sound.{IsSound};
ghost use Rattle.cell_heap.specs.Base.{heap_of};
ghost use Rattle.http_wire.specs.Messages.{Message};
ghost use Rattle.http_wire.specs.Requests as requests;
ghost use Rattle.page_units.specs.declared.limits.Limit.TheVariants.{Served};
ghost use Rattle.page_units.specs.LimitsOf.{number_of};
ghost use Rattle.crom_host.specs.Plain.{settings_of, hosted, Answers, Sent, PlainHost, PlainRun};
ghost use Rattle.crom_host.specs.Plain.{Ending, IsEnd, OneRun};
ghost use Rattle.crom_host.specs.Plain as plain;
ghost use Rattle.crom_host.specs.Stream.{Streamed, StreamCauses, IsWholeEnd};

use crate::host::answer;
use cell_heap::Base;
use http_wire::{Asked, Next, Refusal, Wire, write_reply};
use page_units::{Limit, Limits, NoMemory, Sink, Source, Wrote};
use std::alloc::Global;

/// How a stream ended.
#[derive(Clone, Copy, Debug, PartialEq, Eq)]
pub enum Ended {
    /// Between two requests.
    End,
    /// After a reply that closes, which was written whole.
    Closed,
    /// After the reply to a `/halt`, which was written whole.
    Halted,
    /// Inside a request; those before it were answered.
    Truncated,
    /// A read failed; what was read whole was answered.
    ReadFault,
    /// A write failed; a prefix of the replies was written.
    WriteFault,
    /// As many requests were answered as may be, and one more came, whole or refused.
    RequestBound,
}

/// Answers each request of the source in turn, before the source is asked again, until the stream
/// ends, a reply closes it or as many requests were answered as these bounds allow; `served` counts
/// them, the one whose reply couldn't be written whole with them. After any end, and out of memory, it can be called
/// again, with another stream.
#[tactic(auto, using(crate::proofs::OneRun::one_run))]
pub fn serve_stream<S: Source, W: Sink>(
    alloc: Global,
    base: &mut Base,
    limits: &Limits,
    served: &mut u64,
    source: &mut S,
    sink: &mut W,
) -> Result<Ended, NoMemory>
    requires sound { IsSound 0 (heap_of base.old) }
    requires bound { served.old ≤ number_of limits.now Served }
    ensures causes { StreamCauses result (S.faults source.old) (S.faults source.new)
        (W.faults sink.old) (W.faults sink.new) }
    ensures stream { (bytes old : List ℕ) → S.left source.old ≡ Some bytes
        → W.told sink.old ≡ Some old
        → (written : List ℕ) × (W.told sink.new ≡ Some (old ++ written))
        × Streamed result (settings_of limits.now) (hosted (heap_of base.old))
        (hosted (heap_of base.new)) served.old served.new bytes [] [] written (S.left source.new) }
    // Whole requests within the bound are answered, up to one that closes.
    ensures whole { (bytes : List ℕ) (all : List Message) → S.left source.old ≡ Some bytes
        → requests.RequestsOf bytes all requests.ended
        → served.old + length all ≤ number_of limits.now Served → IsWholeEnd result }
    // A stream has one run to its end on the plain host, but for the open choice.
    ensures one { (bytes : List ℕ) (gets posts : Answers) (sent others : List Sent)
        (h k : PlainHost) (m l : ℕ) (e f : Ending)
        → PlainRun (settings_of limits.now) (hosted (heap_of base.old))
        served.old bytes gets posts sent h m e
        → PlainRun (settings_of limits.now) (hosted (heap_of base.old))
        served.old bytes gets posts others k l f
        → IsEnd e → IsEnd f → OneRun bytes sent others h k m l e f }
    // So the call may be made again, however it ended.
    ensures sound { IsSound 0 (heap_of base.new) }
    ensures bound { served.new ≤ number_of limits.now Served }
{
    let most = limits.number(Limit::Served);
    let mut wire = Wire::new(alloc)?;
    loop {
        match wire.next(source)? {
            Next::Request(incoming) => {
                if *served >= most {
                    return Ok(Ended::RequestBound);
                }
                let reply = answer(alloc, base, limits, &incoming.asked)?;
                *served += 1;
                let halts = is_halt(&incoming.asked);
                let close = incoming.close;
                match write_reply(alloc, sink, &reply, close)? {
                    Wrote::All => {}
                    Wrote::Failed => return Ok(Ended::WriteFault),
                }
                if halts {
                    return Ok(Ended::Halted);
                }
                if close {
                    return Ok(Ended::Closed);
                }
            }
            Next::End => return Ok(Ended::End),
            Next::Truncated => return Ok(Ended::Truncated),
            Next::Failed => return Ok(Ended::ReadFault),
        }
    }
}

/// Whether it is a `/halt`.
fn is_halt(asked: &Result<Asked, Refusal>) -> bool
    ensures { result ≡ plain.is_halt asked.now }
{
    matches!(asked, Ok(Asked::Halt))
}
