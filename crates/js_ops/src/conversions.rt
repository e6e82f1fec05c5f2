//! Conversions of values (ECMA-262 5.1, 9.2, 9.3 and 9.8).
ghost use Rattle.std.specs.Prelude.{◌≡◌, ◌++◌, IsTrue, IfOk, OnOk, length};
ghost use Rattle.js_ops.specs.Conversions as spec;

use crate::numbers::NumberOf;
use crate::text_numbers::number_of_text;
use page_units::{NoMemory, Text, Value, number_len, push_ascii, push_number};
use std::alloc::Global;

/// The truth value of a value (9.2): false for undefined, null, 0 and the empty text.
pub fn truth_of(a: &Value) -> bool
    ensures { result ≡ spec.truth a.now }
{
    match a {
        Value::Undefined | Value::Null => false,
        Value::Bool(truth) => *truth,
        Value::Num(number) => *number != 0,
        Value::Str(text) => !text.is_empty(),
        Value::Cell(_) => true,
    }
}

/// The number of a primitive value (9.3).
pub fn number_of(a: &Value) -> NumberOf
    requires { IsTrue (spec.is_primitive a.now) }
    ensures { result ≡ spec.number a.now }
{
    match a {
        Value::Undefined | Value::Cell(_) => NumberOf::NoNumber,
        Value::Null => NumberOf::Num(0),
        Value::Bool(truth) => NumberOf::Num(i64::from(*truth)),
        Value::Num(number) => NumberOf::Num(*number),
        Value::Str(text) => number_of_text(text.units()),
    }
}

/// The text of a primitive value (9.8), of which a number's is its decimal digits with a sign.
/// Err where memory was refused.
pub fn text_of(alloc: Global, a: &Value) -> Result<Text, NoMemory>
    requires { IsTrue (spec.is_primitive a.now) }
    ensures { IfOk result (λ t. t ≡ spec.text a.now) }
{
    if let Value::Str(text) = a {
        return text.clone();
    }
    let mut units = Vec::with_capacity(alloc, text_len(a))?;
    push_text(&mut units, a)?;
    Text::of_units(units)
}

/// How many units the text of a value has.
pub(crate) fn text_len(a: &Value) -> usize
    ensures { result ≡ length (spec.text a.now) }
{
    match a {
        Value::Undefined => 9,
        Value::Null | Value::Bool(true) => 4,
        Value::Bool(false) => 5,
        Value::Num(number) => number_len(*number),
        Value::Str(text) => text.len(),
        Value::Cell(_) => 0,
    }
}

/// Appends the text of a value.
pub(crate) fn push_text(units: &mut Vec<u16>, a: &Value) -> Result<(), NoMemory>
    ensures { OnOk result (units.new.items ≡ units.old.items ++ spec.text a.now) }
{
    match a {
        Value::Undefined => push_ascii(units, b"undefined"),
        Value::Null => push_ascii(units, b"null"),
        Value::Bool(true) => push_ascii(units, b"true"),
        Value::Bool(false) => push_ascii(units, b"false"),
        Value::Num(number) => push_number(units, *number),
        Value::Str(text) => units.extend_from_slice(text.units()),
        Value::Cell(_) => Ok(()),
    }
}

/// What `typeof` gives of a primitive value (11.4.3).
pub(crate) fn type_name(alloc: Global, a: &Value) -> Result<Text, NoMemory>
    ensures { IfOk result (λ t. t ≡ spec.type_name a.now) }
{
    match a {
        Value::Undefined => Text::of_ascii(alloc, b"undefined"),
        Value::Null => Text::of_ascii(alloc, b"object"),
        Value::Bool(_) => Text::of_ascii(alloc, b"boolean"),
        Value::Num(_) => Text::of_ascii(alloc, b"number"),
        Value::Str(_) => Text::of_ascii(alloc, b"string"),
        Value::Cell(_) => Text::of_ascii(alloc, b""),
    }
}
