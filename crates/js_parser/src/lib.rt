//! The programs of scripts (ECMA-262 5.1, sections 11 to 14, in strict code, less what pages may not use): `parse` gives
//! the tree of a script's tokens, exactly where they have one, or the fault that they show and its place.
#![tactic(auto)]

mod chains;
mod expressions;
pub mod fault;
mod functions;
mod heads;
mod jumps;
mod primary;
mod rules;
pub mod script;
mod sources;
mod statements;

pub use fault::ScriptFault;
pub use script::parse;
