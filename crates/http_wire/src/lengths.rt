//! The length that the value of a Content-Length field gives.
ghost use Rattle.std.specs.Prelude.{◌≡◌, ◌≤◌, false, true, length, MatchOption};
ghost use Rattle.std.specs.Char.{is_ascii_digit};
ghost use Rattle.std.specs.List.{list_all};
ghost use Rattle.std.specs.Str.Parse.{digits_value};
ghost use Rattle.http_wire.specs.Bounds.{length_digits};
ghost use Rattle.http_wire.specs.Fields.{length_in};

use crate::bounds::{BODY_BYTES, LENGTH_DIGITS};
use wire_asks::Refusal;

/// The length that a value gives. BadLength: it isn't 1 to 19 digits; TooLarge: it is above 65,536.
pub fn parse_length(value: &[u8]) -> Result<usize, Refusal>
    ensures { result ≡ length_in value.now }
{
    if value.is_empty() || value.len() > LENGTH_DIGITS {
        return Err(Refusal::BadLength);
    }
    match number_of(value) {
        Some(number) if number <= BODY_BYTES => Ok(number),
        Some(_) => Err(Refusal::TooLarge),
        None => Err(Refusal::BadLength),
    }
}

/// The number that at most 19 digits write; None where a byte is no digit.
fn number_of(value: &[u8]) -> Option<usize>
    requires { length value.now ≤ length_digits }
    ensures { MatchOption result (list_all is_ascii_digit value.now ≡ false)
        (λ number. (list_all is_ascii_digit value.now ≡ true)
        × (number ≡ digits_value 10 value.now)) }
{
    let mut number = 0;
    for byte in value {
        if !byte.is_ascii_digit() {
            return None;
        }
        number = number * 10 + usize::from(*byte - b'0');
    }
    Some(number)
}
