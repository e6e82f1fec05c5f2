//! Operators on two whole numbers (ECMA-262 5.1, 11.5 to 11.7 and 11.10).
ghost use Rattle.std.specs.Prelude.{◌≡◌, ◌<◌, ◌+ℤ◌, ◌-ℤ◌, ◌*ℤ◌, neg_ℤ, ◌^◌, ◌-◌};
ghost use Rattle.js_ops.specs.Whole as spec;
ghost use Rattle.js_ops.specs.Operators.{whole, quotient, rest};
ghost use Rattle.js_ops.specs.Parts.{GivesNumber, number_op};

use crate::numbers::in_range;

/// An operator on two numbers.
#[derive(Clone, Copy)]
pub enum NumberOp {
    /// `|`
    BitOr,
    /// `^`
    BitXor,
    /// `&`
    BitAnd,
    /// `<<`
    ShiftLeft,
    /// `>>`
    ShiftRight,
    /// `>>>`
    ShiftRightUnsigned,
    /// `+`
    Add,
    /// `-`
    Subtract,
    /// `*`
    Multiply,
    /// `/`
    Divide,
    /// `%`
    Remainder,
}

impl NumberOp {
    /// What the operator gives of two numbers, or None where that is no whole number in range.
    pub(crate) fn apply(self, x: i64, y: i64) -> Option<i64>
        ensures { GivesNumber (number_op self x y) result }
    {
        match self {
            NumberOp::BitOr => Some(number_of_bits(to_uint32(x) | to_uint32(y))),
            NumberOp::BitXor => Some(number_of_bits(to_uint32(x) ^ to_uint32(y))),
            NumberOp::BitAnd => Some(number_of_bits(to_uint32(x) & to_uint32(y))),
            NumberOp::ShiftLeft => Some(number_of_bits(to_uint32(x) << shift_count(y))),
            NumberOp::ShiftRight => Some(shifted_right(x, shift_count(y))),
            NumberOp::ShiftRightUnsigned => Some(i64::from(to_uint32(x) >> shift_count(y))),
            NumberOp::Add => sum(x, y),
            NumberOp::Subtract => difference(x, y),
            NumberOp::Multiply => product(x, y),
            NumberOp::Divide => exact_quotient(x, y),
            NumberOp::Remainder => remainder(x, y),
        }
    }
}

/// A number's residue modulo 2^32 (9.6).
pub(crate) fn to_uint32(number: i64) -> u32
    ensures { result ≡ spec.to_uint32 number }
{
    number.rem_euclid(1 << 32) as u32
}

/// The number whose 32 bits these are, with the first bit as its sign (9.5).
pub(crate) fn number_of_bits(bits: u32) -> i64
    ensures { result ≡ spec.signed bits }
{
    i64::from(bits.cast_signed())
}

/// How far a number shifts: its last five bits (11.7).
fn shift_count(number: i64) -> u32
    ensures count { result ≡ spec.shift_count number }
    ensures below { result < 32 }
{
    to_uint32(number) % 32
}

/// The 32 bits of a number, with their sign, shifted to the right (11.7.2).
fn shifted_right(number: i64, count: u32) -> i64
    requires { count < 32 }
    ensures { result ≡ spec.shifted_right (spec.to_int32 number) count }
{
    number_of_bits(to_uint32(number)) >> count
}

fn sum(x: i64, y: i64) -> Option<i64>
    ensures { GivesNumber (whole (x +ℤ y)) result }
{
    in_range(x.checked_add(y)?)
}

fn difference(x: i64, y: i64) -> Option<i64>
    ensures { GivesNumber (whole (x -ℤ y)) result }
{
    in_range(x.checked_sub(y)?)
}

fn product(x: i64, y: i64) -> Option<i64>
    ensures { GivesNumber (whole (x *ℤ y)) result }
{
    in_range(x.checked_mul(y)?)
}

/// The quotient of a division without rest (11.5.2).
fn exact_quotient(x: i64, y: i64) -> Option<i64>
    ensures { GivesNumber (quotient x y) result }
{
    if y == 0 || x.wrapping_rem(y) != 0 {
        return None;
    }
    in_range(x.checked_div(y)?)
}

/// The rest of a division, with the dividend's sign (11.5.3).
fn remainder(x: i64, y: i64) -> Option<i64>
    ensures { GivesNumber (rest x y) result }
{
    if y == 0 {
        return None;
    }
    in_range(x.wrapping_rem(y))
}

/// The number with the other sign (11.4.7).
pub(crate) fn negative(number: i64) -> Option<i64>
    ensures { GivesNumber (whole (neg_ℤ number)) result }
{
    in_range(number.checked_neg()?)
}

/// The number whose 32 bits are the other ones (11.4.8).
pub(crate) fn bit_not(number: i64) -> i64
    ensures { result ≡ spec.signed (2 ^ 32 - 1 - spec.to_uint32 number) }
{
    number_of_bits(!to_uint32(number))
}
