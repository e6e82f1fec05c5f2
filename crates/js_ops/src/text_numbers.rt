//! The number of a text (ECMA-262 5.1, 9.3.1).
ghost use Rattle.std.specs.Prelude.{◌≡◌, ◌≤◌, ◌-◌, nat_le, nat_eq, cond, pos, neg_ℤ, Some, None, length, drop};
ghost use Rattle.std.specs.List.{prefix_len, suffix_len};
ghost use Rattle.std.specs.Char.{is_ascii_digit};
ghost use Rattle.std.specs.Str.Parse.{digits_value};
ghost use Rattle.page_units.specs.Numbers.{greatest_number};
ghost use Rattle.js_ops.specs.TextNumbers as spec;

use crate::numbers::NumberOf;
use page_units::{GREATEST_NUMBER, digit_value, is_line_terminator, is_white_space, is_word};

/// The number of a text: blanks around it don't count, and an empty one is 0.
pub(crate) fn number_of_text(units: &[u16]) -> NumberOf
    ensures { result ≡ spec.number_of_text units.now }
{
    number_of_literal(trimmed(units))
}

/// The units without the blanks at their front and at their end.
fn trimmed(units: &[u16]) -> &[u16]
    ensures { result.now ≡ spec.trimmed units.now }
{
    let front = &units[front_blanks(units)..];
    &front[..end_without_blanks(front)]
}

/// How many blanks stand at the front.
fn front_blanks(units: &[u16]) -> usize
    ensures value { result ≡ prefix_len spec.is_blank units.now }
    ensures bound { result ≤ length units.now }
{
    for (index, unit) in units.iter().enumerate() {
        if !is_blank(*unit) {
            return index;
        }
    }
    units.len()
}

/// Where the blanks at the end begin.
fn end_without_blanks(units: &[u16]) -> usize
    ensures value { result ≡ length units.now - suffix_len spec.is_blank units.now }
    ensures bound { result ≤ length units.now }
{
    let mut end = units.len();
    while end > 0 && is_blank(units[end - 1]) {
        end -= 1;
    }
    end
}

/// Whether a unit is white space or ends a line.
fn is_blank(unit: u16) -> bool
    ensures { result ≡ spec.is_blank unit }
{
    is_white_space(u32::from(unit)) || is_line_terminator(u32::from(unit))
}

fn number_of_literal(units: &[u16]) -> NumberOf
    ensures { result ≡ spec.number_of_literal units.now }
{
    if units.is_empty() {
        return NumberOf::Num(0);
    }
    let digits = unsigned(units);
    if is_digits(digits) {
        return decimal_number(is_minus(units), digits);
    }
    if is_hex_literal(b'x', units) {
        return hex_number(&units[2..]);
    }
    if is_hex_literal(b'X', units) || is_decimal(units) {
        NumberOf::Outside
    } else {
        NumberOf::NoNumber
    }
}

/// The number of decimal digits behind a sign.
fn decimal_number(is_negative: bool, digits: &[u16]) -> NumberOf
    ensures { result ≡ spec.if_in_range (cond is_negative
        (neg_ℤ (pos (digits_value 10 digits.now))) (pos (digits_value 10 digits.now))) }
{
    match value_of(10, digits) {
        Some(size) if is_negative => NumberOf::Num(-size),
        Some(size) => NumberOf::Num(size),
        None => NumberOf::Outside,
    }
}

/// The number of hexadecimal digits.
fn hex_number(digits: &[u16]) -> NumberOf
    ensures { result ≡ spec.if_in_range (pos (digits_value 16 digits.now)) }
{
    match value_of(16, digits) {
        Some(size) => NumberOf::Num(size),
        None => NumberOf::Outside,
    }
}

/// What digits stand for in this radix, or None where that is no number in range.
fn value_of(radix: u64, digits: &[u16]) -> Option<i64>
    requires least { 1 ≤ radix }
    requires most { radix ≤ 16 }
    ensures { let value = digits_value radix digits.now in
        result ≡ cond (nat_le value greatest_number) (Some (pos value)) None }
{
    let mut value = 0;
    for unit in digits {
        value = value * radix + u64::from(digit_value(u32::from(*unit)));
        if value > GREATEST_NUMBER as u64 {
            return None;
        }
    }
    Some(value as i64)
}

/// Whether the units are `0`, this letter and hexadecimal digits.
fn is_hex_literal(letter: u8, units: &[u16]) -> bool
    ensures { result ≡ spec.is_hex_literal letter units.now }
{
    match units {
        [zero, second, digits @ ..] => {
            is(*zero, b'0') && is(*second, letter) && is_hex_digits(digits)
        }
        _ => false,
    }
}

/// Whether the units are hexadecimal digits, one at least.
fn is_hex_digits(units: &[u16]) -> bool
    ensures { result ≡ spec.is_some_digits spec.is_hex_digit units.now }
{
    !units.is_empty() && units.iter().all(|unit| digit_value(u32::from(*unit)) < 16)
}

/// Whether the units are decimal digits, one at least.
fn is_digits(units: &[u16]) -> bool
    ensures { result ≡ spec.is_digits units.now }
{
    !units.is_empty() && units.iter().all(|unit| is_digit(*unit))
}

fn is_digit(unit: u16) -> bool
    ensures { result ≡ is_ascii_digit unit }
{
    u16::from(b'0') <= unit && unit <= u16::from(b'9')
}

/// Whether a unit is this ASCII character.
fn is(unit: u16, character: u8) -> bool
    ensures { result ≡ nat_eq unit character }
{
    unit == u16::from(character)
}

/// Whether the first unit is a minus sign.
fn is_minus(units: &[u16]) -> bool
    ensures { result ≡ spec.is_minus units.now }
{
    match units {
        [first, ..] => is(*first, b'-'),
        [] => false,
    }
}

/// What stands behind a sign, or all units where there is none.
fn unsigned(units: &[u16]) -> &[u16]
    ensures { result.now ≡ spec.unsigned units.now }
{
    match units {
        [first, rest @ ..] if is(*first, b'+') || is(*first, b'-') => rest,
        _ => units,
    }
}

/// Whether the units are a decimal literal, with a sign or without one.
fn is_decimal(units: &[u16]) -> bool
    ensures { result ≡ spec.is_decimal units.now }
{
    is_unsigned_decimal(unsigned(units))
}

fn is_unsigned_decimal(units: &[u16]) -> bool
    ensures { result ≡ spec.is_unsigned_decimal units.now }
{
    if is_word(units, b"Infinity") {
        return true;
    }
    let (whole, rest) = units.split_at(digits_end(units));
    goes_on(whole, rest)
}

/// How many decimal digits stand at the front.
fn digits_end(units: &[u16]) -> usize
    ensures value { result ≡ prefix_len is_ascii_digit units.now }
    ensures bound { result ≤ length units.now }
{
    for (index, unit) in units.iter().enumerate() {
        if !is_digit(*unit) {
            return index;
        }
    }
    units.len()
}

/// Whether a decimal literal may go on like this behind these whole digits.
fn goes_on(whole: &[u16], rest: &[u16]) -> bool
    ensures { result ≡ spec.goes_on whole.now rest.now }
{
    match rest {
        [] => !whole.is_empty(),
        [first, behind @ ..] if is(*first, b'.') => {
            let (fraction, exponent) = behind.split_at(digits_end(behind));
            (!whole.is_empty() || !fraction.is_empty()) && is_exponent(exponent)
        }
        _ => !whole.is_empty() && is_exponent(rest),
    }
}

/// Whether the units are an exponent, or none stand there.
fn is_exponent(units: &[u16]) -> bool
    ensures { result ≡ spec.is_exponent units.now }
{
    match units {
        [] => true,
        [first, rest @ ..] => {
            (is(*first, b'e') || is(*first, b'E')) && is_digits(unsigned(rest))
        }
    }
}
