//! Which operands suit the operators.
ghost use Rattle.std.specs.Prelude.{◌≡◌};
ghost use Rattle.js_ops.specs.Answers as spec;
ghost use Rattle.js_ops.specs.Conversions as conversions;

use crate::comparisons::is_nothing;
use page_units::{BinOp, UnOp, Value};

/// Whether a value is no object.
pub fn is_primitive(a: &Value) -> bool
    ensures { result ≡ conversions.is_primitive a.now }
{
    match a {
        Value::Undefined | Value::Null | Value::Bool(_) | Value::Num(_) | Value::Str(_) => true,
        Value::Cell(_) => false,
    }
}

/// Whether `binary` takes these operands: any for `===` and `!==`; for `==` and `!=` no object
/// beside a text, a number or a truth value; none for `instanceof` and `in`; and primitive values
/// for all others.
pub fn suits_binary(op: BinOp, a: &Value, b: &Value) -> bool
    ensures { result ≡ spec.suits_binary op a.now b.now }
{
    match op {
        BinOp::StrictEqual | BinOp::StrictNotEqual => true,
        BinOp::Equal | BinOp::NotEqual => suits_equal(a, b),
        BinOp::InstanceOf | BinOp::In => false,
        BinOp::BitOr
        | BinOp::BitXor
        | BinOp::BitAnd
        | BinOp::Less
        | BinOp::Greater
        | BinOp::LessEqual
        | BinOp::GreaterEqual
        | BinOp::ShiftLeft
        | BinOp::ShiftRight
        | BinOp::ShiftRightUnsigned
        | BinOp::Add
        | BinOp::Subtract
        | BinOp::Multiply
        | BinOp::Divide
        | BinOp::Remainder => is_primitive(a) && is_primitive(b),
    }
}

/// Whether no object stands beside a text, a number or a truth value.
fn suits_equal(a: &Value, b: &Value) -> bool
    ensures { result ≡ spec.suits_equal a.now b.now }
{
    match (a, b) {
        (Value::Cell(_), Value::Cell(_)) => true,
        _ => (is_primitive(a) && is_primitive(b)) || is_nothing(a) || is_nothing(b),
    }
}

/// Whether `unary` takes this operand: any for `!` and `void`, none for `delete`, and a primitive
/// value for all others.
pub fn suits_unary(op: UnOp, a: &Value) -> bool
    ensures { result ≡ spec.suits_unary op a.now }
{
    match op {
        UnOp::Delete => false,
        UnOp::Not | UnOp::Void => true,
        UnOp::TypeOf | UnOp::Plus | UnOp::Minus | UnOp::BitNot => is_primitive(a),
    }
}
