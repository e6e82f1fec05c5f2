//! Loads a page: its tree into a heap, and the programs of its scripts.
#![tactic(auto)]

mod fault;
mod loading;
mod programs;

pub use fault::LoadFault;
pub use loading::read_scripts;
