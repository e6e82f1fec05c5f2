//! The outside as the project sees it: sources of bytes, sinks for bytes, and files that are fetched
//! by name. Each is a trait, with an implementation in memory and one over the standard library.
#![tactic(auto)]

pub mod shelf;
pub mod sink;
pub mod source;
pub mod standard;

pub use shelf::{FETCHED_BYTES, Fetched, MemoryShelf, Shelf};
pub use sink::{Gave, MemorySink, Sink, SureSink, Wrote, write_all};
pub use source::{MemorySource, Source, SureSource, Took};
pub use standard::{FileShelf, StdSink, StdSource};
use std::alloc::AllocError;

/// Memory was refused: the one answer that no clause ties to a cause.
pub type NoMemory = AllocError;
