//! The operators of expressions (ECMA-262 5.1, 11.3 to 11.13).
ghost use Rattle.std.specs.Prelude.{◌≡◌, ◌≤◌};
ghost use Rattle.js_nodes.specs.Operators as operators;

use js_lexer::{Kind, Punct, Word};
use js_tree::{BinOp, Expr, StepOp, UnOp};
use sqlite_items::Boxed;

/// How tightly an operator between two operands binds: the tightest 1, the loosest 10, and 0 for what is none.
#[tactic(auto, unfolding(crate::specs::Operators::binds))]
pub fn binds(has_in: bool, kind: &Kind) -> u8
    ensures value { result ≡ operators.binds has_in kind.now }
    ensures bound { result ≤ 10 }
{
    match kind {
        Kind::Punct(Punct::Star | Punct::Slash | Punct::Percent) => 1,
        Kind::Punct(Punct::Plus | Punct::Minus) => 2,
        Kind::Punct(Punct::ShiftLeft | Punct::ShiftRight | Punct::ShiftRightZero) => 3,
        Kind::Punct(Punct::Less | Punct::Greater | Punct::LessEqual | Punct::GreaterEqual) => 4,
        Kind::Word(Word::Instanceof) => 4,
        Kind::Word(Word::In) => { if has_in { 4 } else { 0 } }
        Kind::Punct(Punct::Equal | Punct::NotEqual | Punct::StrictEqual | Punct::StrictNotEqual) =>
            5,
        Kind::Punct(Punct::BitAnd) => 6,
        Kind::Punct(Punct::BitXor) => 7,
        Kind::Punct(Punct::BitOr) => 8,
        Kind::Punct(Punct::And) => 9,
        Kind::Punct(Punct::Or) => 10,
        _ => 0,
    }
}

#[tactic(auto, unfolding(crate::specs::Operators::binary_op))]
fn binary_op(kind: &Kind) -> BinOp
    ensures { result ≡ operators.binary_op kind.now }
{
    match kind {
        Kind::Punct(Punct::Star) => BinOp::Multiply,
        Kind::Punct(Punct::Slash) => BinOp::Divide,
        Kind::Punct(Punct::Percent) => BinOp::Remainder,
        Kind::Punct(Punct::Plus) => BinOp::Add,
        Kind::Punct(Punct::Minus) => BinOp::Subtract,
        Kind::Punct(Punct::ShiftLeft) => BinOp::ShiftLeft,
        Kind::Punct(Punct::ShiftRight) => BinOp::ShiftRight,
        Kind::Punct(Punct::ShiftRightZero) => BinOp::ShiftRightUnsigned,
        Kind::Punct(Punct::Less) => BinOp::Less,
        Kind::Punct(Punct::Greater) => BinOp::Greater,
        Kind::Punct(Punct::LessEqual) => BinOp::LessEqual,
        Kind::Punct(Punct::GreaterEqual) => BinOp::GreaterEqual,
        Kind::Word(Word::Instanceof) => BinOp::InstanceOf,
        Kind::Word(Word::In) => BinOp::In,
        Kind::Punct(Punct::Equal) => BinOp::Equal,
        Kind::Punct(Punct::NotEqual) => BinOp::NotEqual,
        Kind::Punct(Punct::StrictEqual) => BinOp::StrictEqual,
        Kind::Punct(Punct::StrictNotEqual) => BinOp::StrictNotEqual,
        Kind::Punct(Punct::BitAnd) => BinOp::BitAnd,
        Kind::Punct(Punct::BitXor) => BinOp::BitXor,
        _ => BinOp::BitOr,
    }
}

/// What an operator between two operands makes of them.
#[tactic(auto, unfolding(crate::specs::Operators::joined))]
pub fn joined(kind: &Kind, x: Boxed<Expr>, y: Boxed<Expr>) -> Expr
    ensures { result ≡ operators.joined kind.now x y }
{
    match kind {
        Kind::Punct(Punct::And) => Expr::And(x, y),
        Kind::Punct(Punct::Or) => Expr::Or(x, y),
        _ => Expr::Binary(binary_op(kind), x, y),
    }
}

/// Whether it assigns.
#[tactic(auto, unfolding(crate::specs::Operators::is_assignment))]
pub fn is_assignment(kind: &Kind) -> bool
    ensures { result ≡ operators.is_assignment kind.now }
{
    match kind {
        Kind::Punct(
            Punct::Assign
            | Punct::PlusAssign
            | Punct::MinusAssign
            | Punct::StarAssign
            | Punct::SlashAssign
            | Punct::PercentAssign
            | Punct::ShiftLeftAssign
            | Punct::ShiftRightAssign
            | Punct::ShiftRightZeroAssign
            | Punct::BitAndAssign
            | Punct::BitXorAssign
            | Punct::BitOrAssign,
        ) => true,
        _ => false,
    }
}

#[tactic(auto, unfolding(crate::specs::Operators::assignment_op))]
fn assignment_op(kind: &Kind) -> BinOp
    ensures { result ≡ operators.assignment_op kind.now }
{
    match kind {
        Kind::Punct(Punct::PlusAssign) => BinOp::Add,
        Kind::Punct(Punct::MinusAssign) => BinOp::Subtract,
        Kind::Punct(Punct::StarAssign) => BinOp::Multiply,
        Kind::Punct(Punct::SlashAssign) => BinOp::Divide,
        Kind::Punct(Punct::PercentAssign) => BinOp::Remainder,
        Kind::Punct(Punct::ShiftLeftAssign) => BinOp::ShiftLeft,
        Kind::Punct(Punct::ShiftRightAssign) => BinOp::ShiftRight,
        Kind::Punct(Punct::ShiftRightZeroAssign) => BinOp::ShiftRightUnsigned,
        Kind::Punct(Punct::BitAndAssign) => BinOp::BitAnd,
        Kind::Punct(Punct::BitXorAssign) => BinOp::BitXor,
        _ => BinOp::BitOr,
    }
}

/// What an assignment makes of its target and value.
#[tactic(auto, unfolding(crate::specs::Operators::assigned))]
pub fn assigned(kind: &Kind, x: Boxed<Expr>, y: Boxed<Expr>) -> Expr
    ensures { result ≡ operators.assigned kind.now x y }
{
    match kind {
        Kind::Punct(Punct::Assign) => Expr::Assign(x, y),
        _ => Expr::AssignOp(assignment_op(kind), x, y),
    }
}

/// Whether it is `++` or `--`.
pub fn is_step(kind: &Kind) -> bool
    ensures { result ≡ operators.is_step kind.now }
{
    match kind {
        Kind::Punct(Punct::Increment | Punct::Decrement) => true,
        _ => false,
    }
}

/// Which of `++` and `--` it is.
pub fn step_op(kind: &Kind) -> StepOp
    ensures { result ≡ operators.step_op kind.now }
{
    match kind {
        Kind::Punct(Punct::Increment) => StepOp::Inc,
        _ => StepOp::Dec,
    }
}

/// Whether it stands before its operand.
#[tactic(auto, unfolding(crate::specs::Operators::is_prefix))]
pub fn is_prefix(kind: &Kind) -> bool
    ensures { result ≡ operators.is_prefix kind.now }
{
    match kind {
        Kind::Word(Word::Delete | Word::Void | Word::Typeof) => true,
        Kind::Punct(
            Punct::Increment
            | Punct::Decrement
            | Punct::Plus
            | Punct::Minus
            | Punct::BitNot
            | Punct::Not,
        ) => true,
        _ => false,
    }
}

/// Whether it is `delete`.
pub fn is_delete(kind: &Kind) -> bool
    ensures { result ≡ operators.is_delete kind.now }
{
    match kind {
        Kind::Word(Word::Delete) => true,
        _ => false,
    }
}

#[tactic(auto, unfolding(crate::specs::Operators::unary_op))]
fn unary_op(kind: &Kind) -> UnOp
    ensures { result ≡ operators.unary_op kind.now }
{
    match kind {
        Kind::Word(Word::Delete) => UnOp::Delete,
        Kind::Word(Word::Void) => UnOp::Void,
        Kind::Word(Word::Typeof) => UnOp::TypeOf,
        Kind::Punct(Punct::Plus) => UnOp::Plus,
        Kind::Punct(Punct::Minus) => UnOp::Minus,
        Kind::Punct(Punct::BitNot) => UnOp::BitNot,
        _ => UnOp::Not,
    }
}

/// What an operator before its operand makes of it.
pub fn prefixed(kind: &Kind, x: Boxed<Expr>) -> Expr
    ensures { result ≡ operators.prefix_value kind.now x }
{
    if is_step(kind) {
        Expr::Step(step_op(kind), true, x)
    } else {
        Expr::Unary(unary_op(kind), x)
    }
}
