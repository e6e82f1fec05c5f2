//! Numbers of values.
ghost use Rattle.std.specs.Prelude.{◌≡◌};
ghost use Rattle.js_ops.specs.Operators.{whole};
ghost use Rattle.js_ops.specs.Parts.{GivesNumber};

use page_units::GREATEST_NUMBER;

/// The number of a primitive value (ECMA-262 5.1, 9.3).
#[derive(Clone, Copy, Debug, PartialEq, Eq)]
pub enum NumberOf {
    /// A whole number from -(2^53 - 1) to 2^53 - 1.
    Num(i64),
    /// It has none.
    NoNumber,
    /// A numeric literal that is no such whole number: one with a point, an exponent or `0X`,
    /// `Infinity`, or one out of range.
    Outside,
}

/// The number, if it is in the range of values.
pub(crate) fn in_range(number: i64) -> Option<i64>
    ensures { GivesNumber (whole number) result }
{
    if -GREATEST_NUMBER <= number && number <= GREATEST_NUMBER {
        Some(number)
    } else {
        None
    }
}
