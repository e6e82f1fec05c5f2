//! Names of cells, and the values of a script (ECMA-262 5.1, 8).
ghost use Rattle.std.specs.Prelude.{◌≡◌};

use crate::fault::NoMemory;
use crate::text::Text;

/// The name of a heap's cell: its place in the order in which cells were made, from 0.
#[derive(Clone, Copy, Debug, PartialEq, Eq, PartialOrd, Ord)]
pub struct CellName(pub u32);

/// The greatest whole number of a script, 2^53 - 1: up to it a double tells every whole number
/// from the next (ECMA-262 5.1, 8.5). The least is its negative. That all numbers are whole is this
/// project's own.
pub const GREATEST_NUMBER: i64 = 9_007_199_254_740_991;

/// A value of a script. A number is a whole number from -(2^53 - 1) to 2^53 - 1; an object is the
/// name of its cell. That numbers are whole is this project's own.
#[derive(Drop, PartialEq, Eq)]
pub enum Value {
    /// The undefined value (8.1).
    Undefined,
    /// The null value (8.2).
    Null,
    /// A truth value (8.3).
    Bool(bool),
    /// A whole number from -(2^53 - 1) to 2^53 - 1 (8.5).
    Num(i64),
    /// A text of UTF-16 units (8.4).
    Str(Text),
    /// An object, by the name of its cell (8.6).
    Cell(CellName),
}

impl Clone for Value {
    ghost is_clone = { λ a b. b ≡ a };

    fn clone(&self) -> Result<Value, NoMemory> {
        match self {
            Value::Undefined => Ok(Value::Undefined),
            Value::Null => Ok(Value::Null),
            Value::Bool(truth) => Ok(Value::Bool(*truth)),
            Value::Num(number) => Ok(Value::Num(*number)),
            Value::Str(text) => Ok(Value::Str(text.clone()?)),
            Value::Cell(name) => Ok(Value::Cell(*name)),
        }
    }
}

/// How an evaluation ended: with a value, or with a throw of one.
#[derive(Drop, PartialEq, Eq)]
pub enum End {
    /// It ended as it should, with this value.
    Value(Value),
    /// This value was thrown.
    Throw(Value),
}
