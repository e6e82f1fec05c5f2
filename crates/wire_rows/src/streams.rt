//! What the wire tells of streams, however they come.
ghost use Rattle.std.specs.Prelude.{◌<◌, IsTrue, IfOk};
ghost use Rattle.byte_ports.specs.Memory.{are_pieces};

use crate::told::told;
use http_wire::{Incoming, Next, Wire};
use page_units::MemorySource;
use row_files::{bytes_of, pieces_of};
use std::alloc::{AllocError, Global};

/// What is told of a stream in pieces as long as fit, and also where it is cut at any one byte, and in pieces of one
/// byte; else the first of these of which something else is told. A long stream is cut at every 97th byte alone.
pub fn told_stream(alloc: Global, fields: &[String]) -> Result<String, AllocError> {
    let bytes = bytes_of(alloc, fields, 0)?;
    let whole = told_in_pieces(alloc, bytes.as_slice(), 4096, 0)?;
    if let Some(other) = told_otherwise(alloc, bytes.as_slice(), whole.as_str())? {
        return Ok(other);
    }
    Ok(whole)
}

fn told_otherwise(alloc: Global, bytes: &[u8], whole: &str) -> Result<Option<String>, AllocError> {
    if bytes.len() >= 1000 {
        return told_otherwise_cut(alloc, bytes, whole, 97);
    }
    let single = told_in_pieces(alloc, bytes, 1, bytes.len())?;
    if single.as_str() != whole {
        return Ok(Some(format!(in alloc; "in single bytes: {single}")?));
    }
    told_otherwise_cut(alloc, bytes, whole, 1)
}

/// What is told of a stream that is cut at a byte of which the number is a multiple, where it isn't the same.
fn told_otherwise_cut(
    alloc: Global,
    bytes: &[u8],
    whole: &str,
    step: usize,
) -> Result<Option<String>, AllocError>
    requires { 0 < step }
{
    for cut in 0..bytes.len() {
        if cut % step == 0 {
            let text = told_in_pieces(alloc, bytes, 4096, cut)?;
            if text.as_str() != whole {
                return Ok(Some(format!(in alloc; "cut at {cut}: {text}")?));
            }
        }
    }
    Ok(None)
}

/// What is told of a stream whose first so many bytes come in pieces of this length.
fn told_in_pieces(
    alloc: Global,
    bytes: &[u8],
    length: usize,
    count: usize,
) -> Result<String, AllocError>
    requires { 0 < length }
{
    let pieces = pieces_of(alloc, length, count)?;
    told_of(alloc, bytes, pieces, Vec::new(alloc))
}

/// What the wire tells of a stream, up to a request that closes, where it comes in these pieces and then
/// in pieces as long as fit. The calls of `read` with the numbers in `fails`, from 1, fail.
fn told_of(
    alloc: Global,
    bytes: &[u8],
    pieces: Vec<usize>,
    fails: Vec<u64>,
) -> Result<String, AllocError>
    requires { IsTrue (are_pieces pieces.items) }
{
    let mut source = MemorySource::new(Vec::from_slice(alloc, bytes)?, pieces, fails);
    let mut wire = Wire::new(alloc)?;
    let mut text = String::new(alloc);
    for _ in 0..4 {
        let next = wire.next(&mut source)?;
        if !push_next(alloc, &mut text, &next)? {
            break;
        }
    }
    Ok(text)
}

/// What is told of a stream in pieces of 20 bytes, where the second read fails.
pub fn told_failing(alloc: Global, fields: &[String]) -> Result<String, AllocError> {
    let bytes = bytes_of(alloc, fields, 0)?;
    let pieces = pieces_of(alloc, 20, bytes.len())?;
    told_of(alloc, bytes.as_slice(), pieces, vec![in alloc; 2]?)
}

/// What is told of a stream in pieces of 10, 8 and 19 bytes and then as long as fit, each behind the number of reads
/// that came before it.
pub fn told_counted(alloc: Global, fields: &[String]) -> Result<String, AllocError> {
    let bytes = bytes_of(alloc, fields, 0)?;
    let source = MemorySource::new(bytes, vec![in alloc; 10, 8, 19]?, Vec::new(alloc));
    told_with_counts(alloc, source)
}

fn told_with_counts(alloc: Global, mut source: MemorySource) -> Result<String, AllocError> {
    let mut wire = Wire::new(alloc)?;
    let mut text = String::new(alloc);
    for _ in 0..4 {
        let next = wire.next(&mut source)?;
        push_count(&mut text, source.calls)?;
        if !push_next(alloc, &mut text, &next)? {
            break;
        }
    }
    Ok(text)
}

fn push_count(text: &mut String, count: u64) -> Result<(), AllocError> {
    write!(text, "{count}: ")
}

/// Writes what came, and returns whether more may follow.
fn push_next(alloc: Global, text: &mut String, next: &Next) -> Result<bool, AllocError> {
    match next {
        Next::Request(incoming) => push_incoming(alloc, text, incoming),
        Next::End => push_and(text, "end", false),
        Next::Truncated => push_and(text, "truncated", false),
        Next::Failed => push_and(text, "failed; ", true),
    }
}

fn push_and(text: &mut String, piece: &str, more: bool) -> Result<bool, AllocError> {
    text.push_str(piece)?;
    Ok(more)
}

/// Writes what a request asks, or why it is refused, and whether it closes.
fn push_incoming(
    alloc: Global,
    text: &mut String,
    incoming: &Incoming,
) -> Result<bool, AllocError> {
    let asked = told(alloc, &incoming.asked)?;
    text.push_str(asked.as_str())?;
    if incoming.close {
        push_and(text, " close; ", false)
    } else {
        push_and(text, "; ", true)
    }
}
