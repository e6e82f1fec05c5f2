//! Replies in HTTP/1.1 (RFC 9110, RFC 9112) over any sink, with their JSON bodies (RFC 8259).
#![tactic(auto)]

pub mod bodies;
mod refusals;
pub mod reply;
mod writing;

pub use bodies::{Outcome, Stats, event_body, load_body, stats_body, tick_body};
pub use refusals::{halted_reply, long_text_reply, refusal_reply};
pub use reply::{Reply, json_reply, tree_reply};
pub use writing::write_reply;
