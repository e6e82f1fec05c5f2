//! The text of the trees that a heap of cells holds.
#![tactic(auto)]

mod append;
mod attributes;
mod escape;
pub mod serialize;

pub use serialize::dom_text;
