//! The command that loads a page and answers the requests of the input.
ghost use Rattle.std.specs.Prelude.{◌≡◌};
ghost use Rattle.crom_commands.specs.Headline.{counts, Causes, RunsStdio};
ghost use Rattle.crom_commands.specs.Headline as spec;

use crate::status::Status;
use crom_host::{Ended, Loaded, load, serve_stream};
use page_units::{Fetched, Limits, NoMemory, Shelf, Sink, Source};
use std::alloc::Global;

/// Loads the page of this name, and answers the requests of the input, each before the input is asked
/// again. Each bound is its default.
pub fn stdio<F: Shelf, S: Source, W: Sink>(
    alloc: Global,
    name: &str,
    shelf: &mut F,
    input: &mut S,
    output: &mut W,
) -> Status
    ensures causes { Causes result
        (counts (F.faults shelf.old) (S.faults input.old) (W.faults output.old))
        (counts (F.faults shelf.new) (S.faults input.new) (W.faults output.new)) }
    ensures runs { RunsStdio result (F.file shelf.old name.now)
        (S.left input.old) (S.left input.new) (W.told output.old) (W.told output.new)
        (counts (F.faults shelf.old) (S.faults input.old) (W.faults output.old))
        (counts (F.faults shelf.new) (S.faults input.new) (W.faults output.new)) }
{
    let page = match shelf.fetch(alloc, name) {
        Ok(Fetched::Bytes(page)) => page,
        Ok(Fetched::Failed) => return Status::ShelfFault,
        Err(_) => return Status::NoMemory,
    };
    let limits = Limits::default();
    let mut base = match load(alloc, page.as_slice(), &limits) {
        Ok(Loaded::Ready(base)) => base,
        Ok(Loaded::HasScripts) => return Status::NotBuilt,
        Err(fault) => return Status::of_load(fault),
    };
    let mut served = 0;
    status_of(serve_stream(alloc, &mut base, &limits, &mut served, input, output))
}

/// The status of a run whose stream ended so.
fn status_of(outcome: Result<Ended, NoMemory>) -> Status
    ensures { result ≡ spec.status_of outcome }
{
    match outcome {
        Ok(Ended::End) | Ok(Ended::Closed) | Ok(Ended::Halted) => Status::Ended,
        Ok(Ended::Truncated) => Status::Truncated,
        Ok(Ended::RequestBound) => Status::RequestBound,
        Ok(Ended::ReadFault) => Status::ReadFault,
        Ok(Ended::WriteFault) => Status::WriteFault,
        Err(_) => Status::NoMemory,
    }
}
