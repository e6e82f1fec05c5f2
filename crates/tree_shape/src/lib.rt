//! The trees of elements and text nodes that a heap of cells holds, and the names of elements that
//! have a rule of their own.
#![tactic(auto)]

pub mod answers;
pub mod names;

pub use answers::answer_at;
pub use names::{is_raw, is_void};
