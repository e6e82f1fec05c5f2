//! Statements (ECMA-262 5.1, section 12).
use crate::expr::Expr;
use page_units::Text;
use sqlite_items::{Boxed, Items};

/// A statement.
#[cycle(stmt)]
#[derive(Drop)]
pub enum Stmt {
    /// A block.
    Block(Items<Stmt>),
    /// `var`
    Var(Items<Decl>),
    /// `;` alone.
    Empty,
    /// An expression.
    Expr(Expr),
    /// `if`: the condition, and what it chooses from.
    If(Expr, Boxed<Stmt>, Option<Boxed<Stmt>>),
    /// `do`: the body, and the condition of another turn.
    DoWhile(Boxed<Stmt>, Expr),
    /// `while`: the condition, and the body.
    While(Expr, Boxed<Stmt>),
    /// `for` with three parts: the first is a `var` or an expression statement.
    For(Option<Boxed<Stmt>>, Option<Expr>, Option<Expr>, Boxed<Stmt>),
    /// `for` over the keys of an object; a `var` before the name is listed in the body's `vars` alone.
    ForIn(Text, Expr, Boxed<Stmt>),
    /// `continue`
    Continue,
    /// `break`
    Break,
    /// `return`
    Return(Option<Expr>),
    /// `throw`
    Throw(Expr),
    /// `switch`
    Switch(Expr, Items<Case>),
    /// `try`: the block, its `catch`, and the block of its `finally`.
    Try(Items<Stmt>, Option<Handler>, Option<Items<Stmt>>),
}

/// A variable that `var` declares.
#[derive(Drop)]
pub struct Decl {
    /// Its name, in UTF-16.
    pub name: Text,
    /// What it is set to there.
    pub value: Option<Expr>,
}

/// A part of a `switch`.
#[cycle(stmt)]
#[derive(Drop)]
pub struct Case {
    /// What the value is compared with; None behind `default`.
    pub test: Option<Expr>,
    /// Its statements.
    pub body: Items<Stmt>,
}

/// A `catch`.
#[cycle(stmt)]
#[derive(Drop)]
pub struct Handler {
    /// The name that what was thrown gets, in UTF-16.
    pub name: Text,
    /// The statements of its block.
    pub body: Items<Stmt>,
}
