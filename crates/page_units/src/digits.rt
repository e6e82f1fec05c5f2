//! The decimal digits of whole numbers (ECMA-262 5.1, 9.8.1), and the values of digits.
ghost use Rattle.std.specs.Prelude.{◌≡◌, ◌≤◌, ◌++◌, OnOk, OnErr, length, take, decimal};
ghost use Rattle.std.specs.Char.{digit_value};
ghost use Rattle.page_units.specs.Digits.{digits};

use crate::fault::NoMemory;
use crate::spelling::push_ascii;

/// Appends a number's digits, behind `-` where it is less than 0. Out of memory, some of them may
/// have been appended.
pub fn push_number(units: &mut Vec<u16>, number: i64) -> Result<(), NoMemory>
    ensures ok { OnOk result (units.new.items ≡ units.old.items ++ digits number) }
    ensures err { OnErr result (take (length units.old.items) units.new.items ≡ units.old.items) }
{
    if number < 0 {
        push_ascii(units, b"-")?;
    }
    push_decimal(units, number.unsigned_abs())
}

/// How many units a number's digits take, with the `-` of a number less than 0.
pub fn number_len(number: i64) -> usize
    ensures count { result ≡ length (digits number) }
    ensures bound { result ≤ 20 }
{
    usize::from(number < 0) + decimal_len(number.unsigned_abs())
}

/// Appends the digits of a number.
fn push_decimal(units: &mut Vec<u16>, number: u64) -> Result<(), NoMemory>
    ensures ok { OnOk result (units.new.items ≡ units.old.items ++ decimal number) }
    ensures err { OnErr result (take (length units.old.items) units.new.items ≡ units.old.items) }
{
    if number >= 10 {
        push_decimal(units, number / 10)?;
    }
    units.push(u16::from(b'0') + (number % 10) as u16)?;
    Ok(())
}

/// The value of a character as a digit: 0 to 9 for `0` to `9`, 10 to 35 for `a` to `z` and for `A`
/// to `Z`, and 36 for any other. So it is a digit of a radix up to 36 where this is less than the
/// radix.
pub fn digit_value(character: u32) -> u32
    ensures value { result ≡ digit_value character }
    ensures bound { result ≤ 36 }
{
    match char::from_u32(character) {
        Some(c) => c.to_digit(36).unwrap_or(36),
        None => 36,
    }
}

/// How many digits a number has.
fn decimal_len(number: u64) -> usize
    ensures count { result ≡ length (decimal number) }
    ensures bound { result ≤ 20 }
{
    if number < 10 {
        1
    } else {
        1 + decimal_len(number / 10)
    }
}
