//! The operators of expressions.

pub use page_units::{BinOp, UnOp};

/// An operator that changes its operand by one (ECMA-262 5.1, 11.3, 11.4.4 and 11.4.5).
#[derive(Clone, Copy, Debug, PartialEq, Eq)]
pub enum StepOp {
    /// `++`
    Inc,
    /// `--`
    Dec,
}
