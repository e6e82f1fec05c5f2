//! The syntax trees of scripts: expressions, statements, the codes of functions, and whole programs
//! (ECMA-262 5.1, sections 11 to 14, less what pages may not use). `specs/Valid` says which programs are
//! valid.
#![tactic(auto)]

pub mod code;
pub mod expr;
pub mod operator;
pub mod stmt;

pub use code::{FnCode, Program};
pub use expr::{Entry, Expr};
pub use operator::{BinOp, StepOp, UnOp};
pub use stmt::{Case, Decl, Handler, Stmt};
