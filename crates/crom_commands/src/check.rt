//! The command that reads a page and its scripts, and runs nothing.
ghost use Rattle.std.specs.Prelude.{◌≡◌, ℕ};
ghost use Rattle.grammar.specs.Exactly.{Exactly};
ghost use Rattle.page_loading.specs.Loading.{ShowsFault};
ghost use Rattle.crom_commands.specs.Headline.{counts, Causes};
ghost use Rattle.crom_commands.specs.Checking.{IsChecked, report, Writes, count_line, RunsCheck};

use crate::status::Status;
use cell_heap::Base;
use page_loading::{LoadFault, read_scripts};
use page_units::{Fetched, Limit, Limits, Shelf, Sink, Wrote, write_all};
use std::alloc::Global;

/// Reads the page of this name and its scripts, in order, and writes how many scripts it has.
pub fn check<F: Shelf, W: Sink>(alloc: Global, name: &str, shelf: &mut F, output: &mut W) -> Status
    ensures causes { (input : ℕ) → Causes result
        (counts (F.faults shelf.old) input (W.faults output.old))
        (counts (F.faults shelf.new) input (W.faults output.new)) }
    ensures runs { (input input' : ℕ) → RunsCheck result (F.file shelf.old name.now)
        (W.told output.old) (W.told output.new)
        (counts (F.faults shelf.old) input (W.faults output.old))
        (counts (F.faults shelf.new) input' (W.faults output.new)) }
{
    let page = match shelf.fetch(alloc, name) {
        Ok(Fetched::Bytes(page)) => page,
        Ok(Fetched::Failed) => return Status::ShelfFault,
        Err(_) => return Status::NoMemory,
    };
    match count_scripts(alloc, page.as_slice()) {
        Ok(count) => write_count(alloc, output, count),
        Err(fault) => Status::of_load(fault),
    }
}

/// How many scripts a page has, each of which has a program. Each bound is its default.
fn count_scripts(alloc: Global, page: &[u8]) -> Result<usize, LoadFault>
    ensures exactly { Exactly (IsChecked page.now) (ShowsFault page.now) (report result) }
{
    let limits = Limits::default();
    let mut base = Base::start(alloc, limits.number(Limit::Weight), 0)?;
    match read_scripts(alloc, &mut base, page) {
        Ok(programs) => Ok(programs.len()),
        Err(fault) => Err(fault),
    }
}

/// Writes how many scripts were read.
fn write_count<W: Sink>(alloc: Global, output: &mut W, count: usize) -> Status
    ensures { Writes result (count_line count) (W.told output.old) (W.told output.new)
        (W.faults output.old) (W.faults output.new) }
{
    let line = match format!(in alloc; "ok scripts {count}\n") {
        Ok(line) => line,
        Err(_) => return Status::NoMemory,
    };
    match write_all(output, line.as_bytes()) {
        Ok(Wrote::All) => Status::Ended,
        Ok(Wrote::Failed) => Status::WriteFault,
        Err(_) => Status::NoMemory,
    }
}
