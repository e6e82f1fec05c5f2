//! The codes of functions, and programs (ECMA-262 5.1, sections 13 and 14).
use crate::stmt::Stmt;
use page_units::Text;
use sqlite_items::Items;

/// The code of a function.
#[derive(Drop)]
pub struct FnCode {
    /// The name that its declaration or expression gives it.
    pub name: Option<Text>,
    /// The names of its parameters, in order.
    pub params: Items<Text>,
    /// The names that `var` declares in its body, each once, in order; functions within are left out.
    pub vars: Items<Text>,
    /// The functions that its body declares, by the numbers of their codes, in order.
    pub funs: Items<u32>,
    /// The statements of its body.
    pub body: Items<Stmt>,
}

/// The program of a script.
#[derive(Drop)]
pub struct Program {
    /// The codes of its functions, in the order in which their `function` stands in the source.
    pub codes: Items<FnCode>,
    /// Its statements.
    pub body: Items<Stmt>,
    /// The names that `var` declares outside of functions, each once, in order.
    pub vars: Items<Text>,
    /// The functions that it declares outside of functions, by the numbers of their codes, in order.
    pub funs: Items<u32>,
}
