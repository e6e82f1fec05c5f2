//! How statements end (ECMA-262 5.1, 8.9).
use page_units::Value;

/// How a statement ended that threw nothing: the type of its completion, with its value.
#[derive(Drop)]
pub enum Flow {
    /// To its end; what comes after it is next.
    Normal,
    /// By `break`, which leaves the innermost loop or `switch`.
    Break,
    /// By `continue`, which begins the next turn of the innermost loop.
    Continue,
    /// By `return`, with the value that the function gives.
    Return(Value),
}
