//! The host of one page, for programs that have pages and requests of their own: `load` reads a page,
//! `answer` replies to what was asked of it, and `serve_stream` answers a whole stream of requests.
//! Each takes the bounds of the page's work as an argument.
#![tactic(auto)]

pub mod host;
pub mod stream;

pub use host::{Loaded, answer, load};
pub use stream::{Ended, serve_stream};
