//! Expressions (ECMA-262 5.1, section 11).
ghost use Rattle.std.specs.Prelude.{◌≡◌};
ghost use Rattle.js_tree.specs.Shapes as shapes;

use crate::operator::{BinOp, StepOp, UnOp};
use page_units::Text;
use sqlite_items::{Boxed, Items};

/// An expression. Lists to the left: `a, b, c` is the comma of the comma of a and b, and c.
#[cycle(expr)]
#[derive(Drop)]
pub enum Expr {
    /// `this`
    This,
    /// A name, in UTF-16.
    Name(Text),
    /// A number, from 0 to 2^53 - 1.
    Num(i64),
    /// A text.
    Str(Text),
    /// `true` or `false`.
    Bool(bool),
    /// `null`
    Null,
    /// A list, with its items.
    Array(Items<Expr>),
    /// An object, with its entries.
    Table(Items<Entry>),
    /// A function, by the number of its code in the program's `codes`.
    Fun(u32),
    /// A property that is named behind a `.`.
    Member(Boxed<Expr>, Text),
    /// A property whose key stands in brackets.
    Index(Boxed<Expr>, Boxed<Expr>),
    /// A call, with its arguments.
    Call(Boxed<Expr>, Items<Expr>),
    /// `new`, with its arguments.
    New(Boxed<Expr>, Items<Expr>),
    /// An operator before its operand.
    Unary(UnOp, Boxed<Expr>),
    /// `++` or `--`; whether it stands before its operand.
    Step(StepOp, bool, Boxed<Expr>),
    /// An operator between its operands.
    Binary(BinOp, Boxed<Expr>, Boxed<Expr>),
    /// `&&`
    And(Boxed<Expr>, Boxed<Expr>),
    /// `||`
    Or(Boxed<Expr>, Boxed<Expr>),
    /// `? :`: the condition, and what stands behind each sign.
    Cond(Boxed<Expr>, Boxed<Expr>, Boxed<Expr>),
    /// `=`
    Assign(Boxed<Expr>, Boxed<Expr>),
    /// An operator with `=`.
    AssignOp(BinOp, Boxed<Expr>, Boxed<Expr>),
    /// `,`
    Comma(Boxed<Expr>, Boxed<Expr>),
}

/// An entry of an object.
#[cycle(expr)]
#[derive(Drop)]
pub struct Entry {
    /// Its key: a name, a text, or the text of a number.
    pub key: Text,
    /// Its value.
    pub value: Expr,
}

impl Expr {
    /// Whether it is a name.
    pub fn is_name(&self) -> bool
        ensures { result ≡ shapes.is_name self.now }
    {
        match self {
            Expr::Name(_) => true,
            _ => false,
        }
    }

    /// Whether it may be assigned: a name or a property (ECMA-262 5.1, 11.13.1, 8.7).
    pub fn is_target(&self) -> bool
        ensures { result ≡ shapes.is_target self.now }
    {
        match self {
            Expr::Name(_) | Expr::Member(_, _) | Expr::Index(_, _) => true,
            _ => false,
        }
    }
}
