//! What is left of a script's tokens, with one token of foresight: what the next one may begin, and what it shows.
#![tactic(auto)]

pub mod cursor;
mod flaws;
mod follows;
mod questions;
mod rules;

pub use cursor::Cursor;
