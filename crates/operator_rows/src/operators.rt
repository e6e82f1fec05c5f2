//! The operators' spellings (ECMA-262 5.1, 11.4 to 11.10).
use page_units::{BinOp, UnOp};

const WITH_ONE: [UnOp; 7] = [
    UnOp::Delete,
    UnOp::Void,
    UnOp::TypeOf,
    UnOp::Plus,
    UnOp::Minus,
    UnOp::BitNot,
    UnOp::Not,
];

/// The operator with one operand that is spelled so.
pub fn operator_with_one(spelling: &str) -> Option<UnOp> {
    for op in WITH_ONE {
        if spelling_of_one(op) == spelling {
            return Some(op);
        }
    }
    None
}

fn spelling_of_one(op: UnOp) -> &'static str {
    match op {
        UnOp::Delete => "delete",
        UnOp::Void => "void",
        UnOp::TypeOf => "typeof",
        UnOp::Plus => "+",
        UnOp::Minus => "-",
        UnOp::BitNot => "~",
        UnOp::Not => "!",
    }
}

const WITH_TWO: [BinOp; 21] = [
    BinOp::BitOr,
    BinOp::BitXor,
    BinOp::BitAnd,
    BinOp::Equal,
    BinOp::NotEqual,
    BinOp::StrictEqual,
    BinOp::StrictNotEqual,
    BinOp::Less,
    BinOp::Greater,
    BinOp::LessEqual,
    BinOp::GreaterEqual,
    BinOp::InstanceOf,
    BinOp::In,
    BinOp::ShiftLeft,
    BinOp::ShiftRight,
    BinOp::ShiftRightUnsigned,
    BinOp::Add,
    BinOp::Subtract,
    BinOp::Multiply,
    BinOp::Divide,
    BinOp::Remainder,
];

/// The operator with two operands that is spelled so.
pub fn operator_with_two(spelling: &str) -> Option<BinOp> {
    for op in WITH_TWO {
        if spelling_of_two(op) == spelling {
            return Some(op);
        }
    }
    None
}

fn spelling_of_two(op: BinOp) -> &'static str {
    match op {
        BinOp::BitOr => "|",
        BinOp::BitXor => "^",
        BinOp::BitAnd => "&",
        BinOp::Equal => "==",
        BinOp::NotEqual => "!=",
        BinOp::StrictEqual => "===",
        BinOp::StrictNotEqual => "!==",
        BinOp::Less => "<",
        BinOp::Greater => ">",
        BinOp::LessEqual => "<=",
        BinOp::GreaterEqual => ">=",
        BinOp::InstanceOf => "instanceof",
        BinOp::In => "in",
        BinOp::ShiftLeft => "<<",
        BinOp::ShiftRight => ">>",
        BinOp::ShiftRightUnsigned => ">>>",
        BinOp::Add => "+",
        BinOp::Subtract => "-",
        BinOp::Multiply => "*",
        BinOp::Divide => "/",
        BinOp::Remainder => "%",
    }
}
