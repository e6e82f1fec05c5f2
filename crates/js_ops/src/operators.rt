//! The operators.
ghost use Rattle.std.specs.Prelude.{◌≡◌, IsTrue, MatchResult};
ghost use Rattle.js_ops.specs.Answers.{suits_binary, suits_unary, Answers, AnswersFree};
ghost use Rattle.js_ops.specs.Conversions.{is_primitive, number};
ghost use Rattle.js_ops.specs.Operators as spec;
ghost use Rattle.js_ops.specs.Parts.{GivesNumber, number_op, number_or_fault, truth_value, inverted};

use crate::arithmetic::{NumberOp, bit_not, negative};
use crate::comparisons::{Relation, compared, equal, strictly_equal};
use crate::conversions::{number_of, truth_of, type_name};
use crate::fault::OpFault;
use crate::joins::{is_text, joined};
use crate::numbers::{NumberOf, in_range};
use crate::steps::count_steps;
use page_units::{BinOp, Meter, UnOp, Value};
use std::alloc::Global;

/// What an operator gives of two operands (11.5 to 11.10) that suit it: `suits_binary` tells.
///
/// # Errors
///
/// `NotWhole` where an operand or the result of an operator on numbers is no whole number in range,
/// `TooLong` where a joined text would have more than 65,535 units, and `Steps` where the steps of
/// joining or comparing texts pass the meter's bound: the meter is then as it was. `NoMemory` where
/// memory was refused: the meter is then as it was, or has counted just the steps of the result.
pub fn binary(
    alloc: Global,
    op: BinOp,
    a: &Value,
    b: &Value,
    meter: &mut Meter,
) -> Result<Value, OpFault>
    requires { IsTrue (suits_binary op a.now b.now) }
    ensures { Answers (spec.binary op a.now b.now) result meter.old meter.new }
{
    match op {
        BinOp::BitOr => on_numbers(NumberOp::BitOr, a, b, meter),
        BinOp::BitXor => on_numbers(NumberOp::BitXor, a, b, meter),
        BinOp::BitAnd => on_numbers(NumberOp::BitAnd, a, b, meter),
        BinOp::Equal => truth(equal(a, b, meter)),
        BinOp::NotEqual => untruth(equal(a, b, meter)),
        BinOp::StrictEqual => truth(strictly_equal(a, b, meter)),
        BinOp::StrictNotEqual => untruth(strictly_equal(a, b, meter)),
        BinOp::Less => truth(compared(Relation::Less, a, b, meter)),
        BinOp::Greater => truth(compared(Relation::Greater, a, b, meter)),
        BinOp::LessEqual => truth(compared(Relation::LessEqual, a, b, meter)),
        BinOp::GreaterEqual => truth(compared(Relation::GreaterEqual, a, b, meter)),
        BinOp::InstanceOf | BinOp::In => unreachable!(),
        BinOp::ShiftLeft => on_numbers(NumberOp::ShiftLeft, a, b, meter),
        BinOp::ShiftRight => on_numbers(NumberOp::ShiftRight, a, b, meter),
        BinOp::ShiftRightUnsigned => on_numbers(NumberOp::ShiftRightUnsigned, a, b, meter),
        BinOp::Add if is_text(a) || is_text(b) => joined(alloc, a, b, meter),
        BinOp::Add => on_numbers(NumberOp::Add, a, b, meter),
        BinOp::Subtract => on_numbers(NumberOp::Subtract, a, b, meter),
        BinOp::Multiply => on_numbers(NumberOp::Multiply, a, b, meter),
        BinOp::Divide => on_numbers(NumberOp::Divide, a, b, meter),
        BinOp::Remainder => on_numbers(NumberOp::Remainder, a, b, meter),
    }
}

/// What an operator gives of one operand (11.4) that suits it: `suits_unary` tells.
///
/// # Errors
///
/// `NotWhole` where the operand or the result of an operator on numbers is no whole number in
/// range, and `NoMemory` where memory was refused.
pub fn unary(alloc: Global, op: UnOp, a: &Value) -> Result<Value, OpFault>
    requires { IsTrue (suits_unary op a.now) }
    ensures { AnswersFree (spec.unary op a.now) result }
{
    match op {
        UnOp::Delete => unreachable!(),
        UnOp::Void => Ok(Value::Undefined),
        UnOp::TypeOf => Ok(Value::Str(type_name(alloc, a)?)),
        UnOp::Plus => number_value(in_range(whole_number(a)?)),
        UnOp::Minus => number_value(negative(whole_number(a)?)),
        UnOp::BitNot => Ok(Value::Num(bit_not(whole_number(a)?))),
        UnOp::Not => Ok(Value::Bool(!truth_of(a))),
    }
}

/// What an operator on numbers gives.
fn on_numbers(op: NumberOp, a: &Value, b: &Value, meter: &mut Meter) -> Result<Value, OpFault>
    requires left { IsTrue (is_primitive a.now) }
    requires right { IsTrue (is_primitive b.now) }
    ensures { Answers (spec.on_numbers a.now b.now (number_op op)) result meter.old meter.new }
{
    let (x, y) = (whole_number(a)?, whole_number(b)?);
    match op.apply(x, y) {
        Some(number) => free(Value::Num(number), meter),
        None => Err(OpFault::NotWhole),
    }
}

/// A value that costs no steps.
fn free(value: Value, meter: &mut Meter) -> Result<Value, OpFault>
    ensures { Answers (spec.free value) result meter.old meter.new }
{
    count_steps(meter, 0)?;
    Ok(value)
}

/// The number of a primitive value, or NotWhole where it has none in range.
fn whole_number(a: &Value) -> Result<i64, OpFault>
    requires { IsTrue (is_primitive a.now) }
    ensures { result ≡ number_or_fault (number a.now) }
{
    match number_of(a) {
        NumberOf::Num(number) => Ok(number),
        NumberOf::NoNumber | NumberOf::Outside => Err(OpFault::NotWhole),
    }
}

/// A number as a value, or NotWhole where there is none.
fn number_value(number: Option<i64>) -> Result<Value, OpFault>
    ensures { (given : spec.Given) → GivesNumber given number → AnswersFree given result }
{
    match number {
        Some(number) => Ok(Value::Num(number)),
        None => Err(OpFault::NotWhole),
    }
}

/// A truth value as a value.
fn truth(answer: Result<bool, OpFault>) -> Result<Value, OpFault>
    ensures { result ≡ truth_value answer }
{
    match answer {
        Ok(truth) => Ok(Value::Bool(truth)),
        Err(fault) => Err(fault),
    }
}

/// The other truth value as a value.
fn untruth(answer: Result<bool, OpFault>) -> Result<Value, OpFault>
    ensures { result ≡ truth_value (inverted answer) }
{
    match answer {
        Ok(truth) => Ok(Value::Bool(!truth)),
        Err(fault) => Err(fault),
    }
}
