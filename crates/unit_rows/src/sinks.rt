//! Sinks, in memory and over the standard streams' traits.
use crate::told::{push_bytes, push_count, push_word};
use page_units::{Gave, MemorySink, Sink, StdSink, SureSink, Wrote, write_all};
use std::alloc::{AllocError, Global};

/// What writes of these texts to a sink answer, which bytes it holds in the end, and how many faults it counted.
pub fn sink(alloc: Global, fields: &[String]) -> Result<String, AllocError> {
    let Some((name, texts)) = fields.split_first() else {
        return String::from_str(alloc, "no sink");
    };
    match name.as_str() {
        "memory with <, of three bytes a write; write 2 fails" => memory(alloc, texts),
        "memory of two bytes a write, of which 3 fails" => fronts(alloc, texts),
        "memory that is sure" => sure(alloc, texts),
        "a writer with room for three bytes" => room(alloc, texts),
        _ => String::from_str(alloc, "no such sink"),
    }
}

fn memory(alloc: Global, texts: &[String]) -> Result<String, AllocError> {
    let bytes = Vec::from_slice(alloc, b"<")?;
    let mut sink = MemorySink::new(bytes, 3, vec![in alloc; 2]?);
    let told = writes(alloc, &mut sink, texts)?;
    ended(told, sink.bytes(), sink.fault_count)
}

/// All of each text is written, and what the sink holds then is told each time.
fn fronts(alloc: Global, texts: &[String]) -> Result<String, AllocError> {
    let mut sink = MemorySink::new(Vec::new(alloc), 2, vec![in alloc; 3]?);
    let mut told = String::new(alloc);
    for text in texts {
        push_all(&mut told, &mut sink, text.as_bytes())?;
        push_bytes(&mut told, sink.bytes())?;
    }
    Ok(told)
}

fn sure(alloc: Global, texts: &[String]) -> Result<String, AllocError> {
    let mut sink = SureSink::new(Vec::new(alloc));
    let told = writes(alloc, &mut sink, texts)?;
    ended(told, sink.bytes(), 0)
}

fn room(alloc: Global, texts: &[String]) -> Result<String, AllocError> {
    let mut room = [0; 3];
    let mut sink = StdSink::new(room.as_mut_slice());
    let told = writes(alloc, &mut sink, texts)?;
    let faults = sink.fault_count;
    ended(told, &room, faults)
}

fn ended(mut told: String, bytes: &[u8], faults: u64) -> Result<String, AllocError> {
    push_bytes(&mut told, bytes)?;
    push_count(&mut told, faults)?;
    Ok(told)
}

/// What the writes of these texts answer, once for each; of a text behind a `*` all is written.
fn writes<S: Sink>(alloc: Global, sink: &mut S, texts: &[String]) -> Result<String, AllocError> {
    let mut told = String::new(alloc);
    for text in texts {
        match text.strip_prefix("*") {
            Some(text) => push_all(&mut told, sink, text.as_bytes())?,
            None => push_write(&mut told, sink, text.as_bytes())?,
        }
    }
    Ok(told)
}

fn push_write<S: Sink>(told: &mut String, sink: &mut S, piece: &[u8]) -> Result<(), AllocError> {
    if piece.is_empty() {
        return push_word(told, "?");
    }
    match sink.write(piece)? {
        Gave::Took(count) => push_count(told, count as u64),
        Gave::Failed => push_word(told, "failed"),
    }
}

fn push_all<S: Sink>(told: &mut String, sink: &mut S, bytes: &[u8]) -> Result<(), AllocError> {
    match write_all(sink, bytes)? {
        Wrote::All => push_word(told, "all"),
        Wrote::Failed => push_word(told, "failed"),
    }
}
