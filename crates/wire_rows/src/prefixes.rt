//! What a failing sink takes of a reply.
ghost use Rattle.std.specs.Prelude.{◌<◌};

use crate::texts::text_of;
use page_units::{MemorySink, Wrote};
use row_files::number;
use std::alloc::{AllocError, Global};
use wire_replies::{halted_reply, write_reply};

/// The bytes of the reply to a halt, in a sink that takes so many a call, if a sink of which any one call fails takes
/// a shorter prefix of them; else the first failing call where it doesn't.
pub fn told_prefixes(alloc: Global, fields: &[String]) -> Result<String, AllocError> {
    let most = number(fields, 0) as usize;
    let (wrote, sink) = written(alloc, most.max(1), Vec::new(alloc))?;
    if wrote != Wrote::All {
        return String::from_str(alloc, "failed");
    }
    if let Some(call) = bad_call(alloc, most.max(1), &sink)? {
        return format!(in alloc; "no prefix where call {call} fails");
    }
    text_of(alloc, sink.bytes())
}

/// Writes the reply to a halt into a sink that takes so many bytes a call, and whose calls with
/// these numbers fail.
fn written(alloc: Global, most: usize, fails: Vec<u64>) -> Result<(Wrote, MemorySink), AllocError>
    requires { 0 < most }
{
    let mut sink = MemorySink::new(Vec::new(alloc), most, fails);
    let wrote = write_reply(alloc, &mut sink, &halted_reply(alloc)?, false)?;
    Ok((wrote, sink))
}

/// The first call that leaves no prefix where it fails.
fn bad_call(alloc: Global, most: usize, whole: &MemorySink) -> Result<Option<u64>, AllocError>
    requires { 0 < most }
{
    for before in 0..whole.calls {
        let (wrote, cut) = written(alloc, most, vec![in alloc; before + 1]?)?;
        if wrote != Wrote::Failed || !is_prefix(&cut, whole, before) {
            return Ok(Some(before + 1));
        }
    }
    Ok(None)
}

/// Whether the sink had one fault and holds a shorter prefix: a byte for each call before, where it takes one a call.
fn is_prefix(cut: &MemorySink, whole: &MemorySink, before: u64) -> bool {
    cut.fault_count == 1
        && cut.bytes().len() < whole.bytes().len()
        && whole.bytes().starts_with(cut.bytes())
        && (cut.most > 1 || cut.bytes().len() as u64 == before)
}
