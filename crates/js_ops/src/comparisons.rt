//! Comparisons (ECMA-262 5.1, 11.8 and 11.9).
ghost use Rattle.std.specs.Prelude.{◌≡◌, IsTrue};
ghost use Rattle.js_ops.specs.Conversions.{is_primitive};
ghost use Rattle.js_ops.specs.Answers.{suits_equal, Answers};
ghost use Rattle.js_ops.specs.Operators as spec;
ghost use Rattle.js_ops.specs.Parts.{GivesTruth, truth_value, holds, texts_stand, numbers_stand};

use crate::conversions::number_of;
use crate::fault::OpFault;
use crate::numbers::NumberOf;
use crate::steps::{count_steps, steps_of_comparing};
use page_units::{Meter, Value};
use std::cmp::Ordering;

/// How two texts or numbers may stand to one another.
#[derive(Clone, Copy)]
pub enum Relation {
    /// They are the same.
    Equal,
    /// The first is before the second.
    Less,
    /// The first is after the second.
    Greater,
    /// The first isn't after the second.
    LessEqual,
    /// The first isn't before the second.
    GreaterEqual,
}

impl Relation {
    fn holds(self, order: Ordering) -> bool
        ensures { result ≡ holds self order }
    {
        match self {
            Relation::Equal => order.is_eq(),
            Relation::Less => order.is_lt(),
            Relation::Greater => order.is_gt(),
            Relation::LessEqual => order.is_le(),
            Relation::GreaterEqual => order.is_ge(),
        }
    }
}

/// Whether two primitive values stand in this relation: texts by their units, all else as numbers.
pub(crate) fn compared(
    relation: Relation,
    a: &Value,
    b: &Value,
    meter: &mut Meter,
) -> Result<bool, OpFault>
    requires left { IsTrue (is_primitive a.now) }
    requires right { IsTrue (is_primitive b.now) }
    ensures { let given = spec.compared a.now b.now (texts_stand relation) (numbers_stand relation) in
        Answers given (truth_value result) meter.old meter.new }
{
    if let (Value::Str(x), Value::Str(y)) = (a, b) {
        count_steps(meter, steps_of_comparing(x, y))?;
        return Ok(relation.holds(x.cmp(y)));
    }
    let truth = numbers_compared(relation, number_of(a), number_of(b))?;
    free(truth, meter)
}

fn numbers_compared(relation: Relation, x: NumberOf, y: NumberOf) -> Result<bool, OpFault>
    ensures { GivesTruth (spec.numbers_compared x y (numbers_stand relation)) result }
{
    match (x, y) {
        (NumberOf::Outside, _) | (_, NumberOf::Outside) => Err(OpFault::NotWhole),
        (NumberOf::Num(x), NumberOf::Num(y)) => Ok(relation.holds(x.cmp(&y))),
        (NumberOf::NoNumber, _) | (_, NumberOf::NoNumber) => Ok(false),
    }
}

/// Whether two values are equal by `==` (11.9.3).
pub(crate) fn equal(a: &Value, b: &Value, meter: &mut Meter) -> Result<bool, OpFault>
    requires { IsTrue (suits_equal a.now b.now) }
    ensures { Answers (spec.equal a.now b.now) (truth_value result) meter.old meter.new }
{
    if is_nothing(a) || is_nothing(b) {
        return free(is_nothing(a) && is_nothing(b), meter);
    }
    if let (Value::Cell(x), Value::Cell(y)) = (a, b) {
        return free(x == y, meter);
    }
    compared(Relation::Equal, a, b, meter)
}

/// Whether two values are equal by `===` (11.9.6).
pub(crate) fn strictly_equal(a: &Value, b: &Value, meter: &mut Meter) -> Result<bool, OpFault>
    ensures { Answers (spec.strictly_equal a.now b.now) (truth_value result) meter.old meter.new }
{
    match (a, b) {
        (Value::Undefined, Value::Undefined) | (Value::Null, Value::Null) => free(true, meter),
        (Value::Bool(x), Value::Bool(y)) => free(x == y, meter),
        (Value::Num(x), Value::Num(y)) => free(x == y, meter),
        (Value::Str(x), Value::Str(y)) => {
            count_steps(meter, steps_of_comparing(x, y))?;
            Ok(x == y)
        }
        (Value::Cell(x), Value::Cell(y)) => free(x == y, meter),
        _ => free(false, meter),
    }
}

/// Whether a value is undefined or null.
pub(crate) fn is_nothing(a: &Value) -> bool
    ensures { result ≡ spec.is_nothing a.now }
{
    match a {
        Value::Undefined | Value::Null => true,
        Value::Bool(_) | Value::Num(_) | Value::Str(_) | Value::Cell(_) => false,
    }
}

/// A truth value that costs no steps.
fn free(truth: bool, meter: &mut Meter) -> Result<bool, OpFault>
    ensures { Answers (spec.bool truth) (truth_value result) meter.old meter.new }
{
    count_steps(meter, 0)?;
    Ok(truth)
}
