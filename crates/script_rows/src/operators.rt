//! The signs of operators.
use js_tree::{BinOp, StepOp, UnOp};

pub(crate) fn unary_sign(op: UnOp) -> &'static str {
    match op {
        UnOp::Delete => "delete",
        UnOp::Void => "void",
        UnOp::TypeOf => "typeof",
        UnOp::Plus => "+",
        UnOp::Minus => "-",
        UnOp::BitNot => "~",
        UnOp::Not => "!",
    }
}

pub(crate) fn binary_sign(op: BinOp) -> &'static str {
    match op {
        BinOp::BitOr => "|",
        BinOp::BitXor => "^",
        BinOp::BitAnd => "&",
        BinOp::Equal => "==",
        BinOp::NotEqual => "!=",
        BinOp::StrictEqual => "===",
        BinOp::StrictNotEqual => "!==",
        BinOp::Less => "<",
        BinOp::Greater => ">",
        BinOp::LessEqual => "<=",
        BinOp::GreaterEqual => ">=",
        BinOp::InstanceOf => "instanceof",
        BinOp::In => "in",
        BinOp::ShiftLeft => "<<",
        BinOp::ShiftRight => ">>",
        BinOp::ShiftRightUnsigned => ">>>",
        BinOp::Add => "+",
        BinOp::Subtract => "-",
        BinOp::Multiply => "*",
        BinOp::Divide => "/",
        BinOp::Remainder => "%",
    }
}

/// The sign of an assignment with an operator; `?` where none has the operator.
pub(crate) fn assignment_sign(op: BinOp) -> &'static str {
    match op {
        BinOp::BitOr => "|=",
        BinOp::BitXor => "^=",
        BinOp::BitAnd => "&=",
        BinOp::ShiftLeft => "<<=",
        BinOp::ShiftRight => ">>=",
        BinOp::ShiftRightUnsigned => ">>>=",
        BinOp::Add => "+=",
        BinOp::Subtract => "-=",
        BinOp::Multiply => "*=",
        BinOp::Divide => "/=",
        BinOp::Remainder => "%=",
        _ => "?",
    }
}

/// `++` and `--` before an operand; behind it they are `_++` and `_--`.
pub(crate) fn step_sign(op: StepOp, before: bool) -> &'static str {
    match (op, before) {
        (StepOp::Inc, true) => "++",
        (StepOp::Inc, false) => "_++",
        (StepOp::Dec, true) => "--",
        (StepOp::Dec, false) => "_--",
    }
}
