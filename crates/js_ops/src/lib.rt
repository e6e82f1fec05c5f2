//! The operators of expressions on primitive values, and the conversions that they rest on
//! (ECMA-262 5.1, 9 and 11), with whole numbers of 53 bits and a sign alone. No heap is needed.
#![tactic(auto)]

mod arithmetic;
mod comparisons;
pub mod conversions;
pub mod fault;
mod joins;
pub mod laws;
pub mod numbers;
pub mod operators;
mod steps;
pub mod suits;
mod text_numbers;

pub use conversions::{number_of, text_of, truth_of};
pub use fault::OpFault;
pub use numbers::NumberOf;
pub use operators::{binary, unary};
pub use suits::{is_primitive, suits_binary, suits_unary};
