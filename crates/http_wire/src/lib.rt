//! Requests of HTTP/1.x from any source of bytes, one after another and however the source cuts
//! them (RFC 9112), and what each asks. A line may end in LF alone, empty lines may stand before a
//! request line, and a target is any text without blanks and control bytes; lines aren't folded.
//! What is asked and what is replied stand in crates of their own; what a host uses of them, and
//! what its contracts cite, is handed on here.
#![tactic(auto)]

mod bounds;
mod fields;
mod framing;
mod head;
mod held;
mod lengths;
mod options;
mod request;
pub mod wire;

pub use page_units::Wrote;
pub use wire::{Incoming, Next, Wire};
pub use wire_asks::{Asked, Asks, Refusal, ends_connection};
pub use wire_replies::{
    Outcome, Reply, Stats, event_body, halted_reply, json_reply, load_body, long_text_reply,
    refusal_reply, stats_body, tick_body, tree_reply, write_reply,
};
