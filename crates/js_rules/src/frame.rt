//! Where a body is evaluated (ECMA-262 5.1, 10.3).
use page_units::{CellName, Value};

/// Where a body is evaluated: the execution context of a script or of a call.
#[derive(Drop)]
pub struct Frame {
    /// The innermost scope.
    pub scope: CellName,
    /// The value of `this`.
    pub this: Value,
    /// The number of the first code of its program, to which the numbers in its tree are added.
    pub first: u32,
}
