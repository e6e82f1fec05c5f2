//! What every crate above speaks of: texts and values, the events and answers of a page. The outside
//! that is read, written and fetched stands in a crate of its own, which is handed on here. Nothing
//! here knows of heaps, pages or routes.
#![tactic(auto)]

pub mod blanks;
pub mod coding;
pub mod digits;
pub mod event;
pub mod fault;
pub mod limits;
pub mod meter;
pub mod operator;
pub mod shared;
pub mod spelling;
pub mod text;
pub mod value;

pub use blanks::{is_line_terminator, is_white_space};
pub use byte_ports::{
    FETCHED_BYTES, Fetched, FileShelf, Gave, MemoryShelf, MemorySink, MemorySource, Shelf, Sink,
    Source, StdSink, StdSource, SureSink, SureSource, Took, Wrote, write_all,
};
pub use coding::{text_of_utf8, utf8_of};
pub use digits::{digit_value, number_len, push_number};
pub use event::{PageEvent, Request, Response, Verb};
pub use fault::{NoMemory, RunFault, Stopped};
pub use limits::{Limit, Limits};
pub use meter::Meter;
pub use operator::{BinOp, UnOp};
pub use shared::Shared;
pub use spelling::{is_word, push_ascii, push_char};
pub use text::{LONGEST_TEXT, Text};
pub use value::{CellName, End, GREATEST_NUMBER, Value};
