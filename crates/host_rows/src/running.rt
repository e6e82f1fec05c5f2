//! Runs over objects in memory.
use crate::telling::told;
use crom_commands::{Status, run};
use page_units::{MemoryShelf, MemorySink, MemorySource, SureSink, SureSource};
use row_files::pieces_of;
use std::alloc::{AllocError, Global};
use std::collections::BTreeMap;

const DOM: &str = "GET /dom HTTP/1.1\r\n\r\n";

/// The most requests that a run answers.
const MOST: usize = 100_000;

/// A run: its arguments, the page `p`, the input, of which `count` bytes come in pieces of `length` and then as many as fit,
/// and which call of shelf, input and output fails, from 1 (0: none).
#[derive(Clone, Copy)]
pub struct Run<'a> {
    pub words: &'a [String],
    pub page: &'a str,
    pub input: &'a str,
    pub length: usize,
    pub count: usize,
    pub fails: [u64; 3],
}

impl<'a> Run<'a> {
    /// One that asks for the tree of an empty page, and in which nothing fails.
    pub fn new(words: &'a [String]) -> Run<'a> {
        Run {
            words,
            page: "<html></html>",
            input: DOM,
            length: 2,
            count: 3,
            fails: [0, 0, 0],
        }
    }

    /// What the run wrote, taken 7 bytes at a time, and how it ended.
    pub fn told(&self, alloc: Global) -> Result<String, AllocError> {
        let mut shelf = shelf_of(alloc, self.page, self.fails[0])?;
        let mut source = source_of(alloc, self)?;
        let mut sink = MemorySink::new(Vec::new(alloc), 7, vec![in alloc; self.fails[2]]?);
        let words = copied(alloc, self.words)?;
        let status = run(alloc, &words, &mut shelf, &mut source, &mut sink);
        told(alloc, sink.bytes(), status)
    }
}

fn copied(alloc: Global, words: &[String]) -> Result<Vec<String>, AllocError> {
    let mut all = Vec::new(alloc);
    for word in words {
        all.push(word.clone()?)?;
    }
    Ok(all)
}

/// A shelf with the page `p`.
fn shelf_of(alloc: Global, page: &str, fails: u64) -> Result<MemoryShelf, AllocError> {
    let mut files = BTreeMap::new(alloc);
    files.insert(
        String::from_str(alloc, "p")?,
        Vec::from_slice(alloc, page.as_bytes())?,
    )?;
    Ok(MemoryShelf::new(files, vec![in alloc; fails]?))
}

fn source_of(alloc: Global, run: &Run<'_>) -> Result<MemorySource, AllocError> {
    let bytes = Vec::from_slice(alloc, run.input.as_bytes())?;
    let fails = vec![in alloc; run.fails[1]]?;
    let pieces = pieces_of(alloc, run.length.max(1), run.count)?;
    Ok(MemorySource::new(bytes, pieces, fails))
}

fn stdio(alloc: Global) -> Result<Vec<String>, AllocError> {
    let command = String::from_str(alloc, "stdio")?;
    Ok(vec![in alloc; command, String::from_str(alloc, "p")?]?)
}

/// What the requests are answered on the page, whole and cut at each byte, where it is always the same; else the first
/// other cut with its answer.
pub fn told_of_each_cut(alloc: Global, page: &str, input: &str) -> Result<String, AllocError> {
    let words = stdio(alloc)?;
    let whole = Run {
        page,
        input,
        length: MOST,
        count: 0,
        ..Run::new(words.as_slice())
    }
    .told(alloc)?;
    for cut in 1..input.len() {
        let text = Run {
            page,
            input,
            length: cut,
            count: cut,
            ..Run::new(words.as_slice())
        }
        .told(alloc)?;
        if text.as_str() != whole.as_str() {
            return format!(in alloc; "cut at {cut}: {text}");
        }
    }
    Ok(whole)
}

/// Two requests that come byte by byte, where this read fails, from 1.
pub fn read_in_bytes(alloc: Global, fails: u64) -> Result<String, AllocError> {
    let words = stdio(alloc)?;
    let input = times(alloc, DOM, 2)?;
    Run {
        page: "<a></a>",
        input: input.as_str(),
        length: 1,
        count: input.len(),
        fails: [0, fails, 0],
        ..Run::new(words.as_slice())
    }
    .told(alloc)
}

fn times(alloc: Global, text: &str, count: usize) -> Result<String, AllocError> {
    let mut all = String::new(alloc);
    for _ in 0..count {
        all.push_str(text)?;
    }
    Ok(all)
}

/// As many requests as a run answers and then this, on the page `<a></a>`: how many replies with its tree came, where
/// there is nothing else, and how it ended.
pub fn behind_many(alloc: Global, last: &str) -> Result<String, AllocError> {
    let words = stdio(alloc)?;
    let mut input = times(alloc, DOM, MOST)?;
    input.push_str(last)?;
    let mut shelf = shelf_of(alloc, "<a></a>", 0)?;
    let mut source = SureSource::new(Vec::from_slice(alloc, input.as_bytes())?);
    let mut sink = SureSink::new(Vec::new(alloc));
    let status = run(alloc, &words, &mut shelf, &mut source, &mut sink);
    counted(alloc, sink.bytes(), status)
}

fn counted(alloc: Global, bytes: &[u8], status: Status) -> Result<String, AllocError> {
    let reply =
        "HTTP/1.1 200 OK\r\nContent-Type: text/html; charset=utf-8\r\nContent-Length: 7\r\n\r\n<a></a>";
    let all = times(alloc, reply, MOST)?;
    if bytes == all.as_bytes() {
        return told(alloc, b"all replies", status);
    }
    told(alloc, bytes, status)
}
