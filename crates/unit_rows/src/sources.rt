//! Sources, in memory and over the standard streams' traits.
ghost use Rattle.std.specs.Prelude.{◌≡◌, ◌<◌, length};

use crate::told::{push_bytes, push_count, push_word};
use page_units::{MemorySource, Source, StdSource, SureSource, Took};
use row_files::{field, number};
use std::alloc::{AllocError, Global};
use std::io::{self, Read};

/// What so many reads of a source answer, which bytes came, and how many faults it counted.
pub fn source(alloc: Global, fields: &[String]) -> Result<String, AllocError> {
    let times = number(fields, 2);
    let text = field(fields, 1).as_bytes();
    match field(fields, 0) {
        "memory in pieces of 2, 9 and 3; read 2 fails" => three_pieces(alloc, text, times),
        "memory in a piece of 1; reads 1, 3 and 6 fail" => one_piece(alloc, text, times),
        "memory that is sure" => sure(alloc, text, times),
        "a reader, by two bytes" => slice(alloc, text, times),
        "a reader of one byte, then an error, then the end" => one_then_error(alloc, times),
        _ => String::from_str(alloc, "no such source"),
    }
}

fn three_pieces(alloc: Global, text: &[u8], times: u64) -> Result<String, AllocError> {
    let bytes = Vec::from_slice(alloc, text)?;
    let pieces = vec![in alloc; 2, 9, 3]?;
    let mut source = MemorySource::new(bytes, pieces, vec![in alloc; 2]?);
    let told = reads(alloc, &mut source, &mut [0; 4], times)?;
    with_faults(told, source.fault_count)
}

fn one_piece(alloc: Global, text: &[u8], times: u64) -> Result<String, AllocError> {
    let bytes = Vec::from_slice(alloc, text)?;
    let pieces = vec![in alloc; 1]?;
    let mut source = MemorySource::new(bytes, pieces, vec![in alloc; 1, 3, 6]?);
    let told = reads(alloc, &mut source, &mut [0; 4], times)?;
    with_faults(told, source.fault_count)
}

fn sure(alloc: Global, text: &[u8], times: u64) -> Result<String, AllocError> {
    let mut source = SureSource::new(Vec::from_slice(alloc, text)?);
    reads(alloc, &mut source, &mut [0; 4], times)
}

fn slice(alloc: Global, text: &[u8], times: u64) -> Result<String, AllocError> {
    let mut source = StdSource::new(text);
    let told = reads(alloc, &mut source, &mut [0; 2], times)?;
    with_faults(told, source.fault_count)
}

fn one_then_error(alloc: Global, times: u64) -> Result<String, AllocError> {
    let mut source = StdSource::new(OneThenError(0));
    let told = reads(alloc, &mut source, &mut [0; 4], times)?;
    with_faults(told, source.fault_count)
}

fn with_faults(mut told: String, faults: u64) -> Result<String, AllocError> {
    push_count(&mut told, faults)?;
    Ok(told)
}

/// What so many reads answer, and the bytes that came.
fn reads<S: Source>(
    alloc: Global,
    source: &mut S,
    into: &mut [u8],
    times: u64,
) -> Result<String, AllocError>
    requires { 0 < length into.old }
{
    let mut told = String::new(alloc);
    let mut came = Vec::new(alloc);
    for _ in 0..times {
        read(source, into, &mut told, &mut came)?;
    }
    push_bytes(&mut told, &came)?;
    Ok(told)
}

fn read<S: Source>(
    source: &mut S,
    into: &mut [u8],
    told: &mut String,
    came: &mut Vec<u8>,
) -> Result<(), AllocError>
    requires { 0 < length into.old }
    ensures { length into.new ≡ length into.old }
{
    match source.read(into) {
        Took::Got(count) => push_got(told, came, &into[..count]),
        Took::End => push_word(told, "end"),
        Took::Failed => push_word(told, "failed"),
    }
}

fn push_got(told: &mut String, came: &mut Vec<u8>, bytes: &[u8]) -> Result<(), AllocError> {
    came.extend_from_slice(bytes)?;
    push_count(told, bytes.len() as u64)
}

/// One byte, then an error, then the end.
#[derive(Drop)]
struct OneThenError(u8);

impl Read for OneThenError {
    fn read(&mut self, into: &mut [u8]) -> io::Result<usize> {
        self.0 = self.0.saturating_add(1);
        match into {
            [first, ..] if self.0 == 1 => {
                *first = b'a';
                Ok(1)
            }
            _ if self.0 == 2 => Err(io::Error::other("no")),
            _ => Ok(0),
        }
    }
}
