//! Joining texts (ECMA-262 5.1, 11.6.1).
ghost use Rattle.std.specs.Prelude.{◌≡◌, IsTrue};
ghost use Rattle.js_ops.specs.Conversions.{is_primitive, text};
ghost use Rattle.js_ops.specs.Answers.{Answers};
ghost use Rattle.js_ops.specs.Operators as spec;

use crate::conversions::{push_text, text_len};
use crate::fault::OpFault;
use crate::steps::{UNITS_A_STEP, count_steps};
use page_units::{LONGEST_TEXT, Meter, Text, Value};
use std::alloc::Global;

/// Whether a value is a text.
pub(crate) fn is_text(a: &Value) -> bool
    ensures { result ≡ spec.is_text a.now }
{
    match a {
        Value::Str(_) => true,
        Value::Undefined | Value::Null | Value::Bool(_) | Value::Num(_) | Value::Cell(_) => false,
    }
}

/// The texts of two values as one text. A text that would be too long costs no steps, and no
/// memory is asked for before the steps are counted.
pub(crate) fn joined(
    alloc: Global,
    a: &Value,
    b: &Value,
    meter: &mut Meter,
) -> Result<Value, OpFault>
    ensures { Answers (spec.joined (text a.now) (text b.now)) result meter.old meter.new }
{
    let (left, right) = (text_len(a), text_len(b));
    if left > LONGEST_TEXT || right > LONGEST_TEXT - left {
        return Err(OpFault::TooLong);
    }
    let count = left + right;
    count_steps(meter, (count / UNITS_A_STEP) as u64)?;
    let mut units = Vec::with_capacity(alloc, count)?;
    push_text(&mut units, a)?;
    push_text(&mut units, b)?;
    Ok(Value::Str(Text::of_units(units)?))
}
