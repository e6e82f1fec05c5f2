//! The characters of a text with the bytes at which they stand, read one by one with one of foresight,
//! and the end as a last character, so that a reader of a grammar over characters has a token there.
#![tactic(auto)]

pub mod chars;

pub use chars::{Char, Characters};
