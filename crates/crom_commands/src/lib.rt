//! The commands of the host's program over a shelf, a source and a sink, whatever these are: `run` is
//! the whole program but for the real files and streams, which `cromhost` hands it.
#![tactic(auto)]

mod check;
mod program;
mod status;
mod stdio;
mod words;

pub use program::run;
pub use status::Status;
