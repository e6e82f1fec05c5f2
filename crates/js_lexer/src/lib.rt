//! The tokens of a script (ECMA-262 5.1, section 7, restricted to what this project's pages may say):
//! `lex` gives each with its kind, its place and whether a line terminator stands before it, or the
//! fault of a source that has none.
#![tactic(auto)]

mod blanks;
mod classes;
pub mod fault;
mod lexer;
mod names;
mod numbers;
mod punctuators;
mod source;
mod texts;
pub mod token;
mod words;

pub use fault::LexFault;
pub use source::lex;
pub use token::{Kind, Punct, Token, Word};
