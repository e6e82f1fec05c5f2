//! Sources of scripts with the faults that they show or the trees that they have, worked out by hand: the rows of
//! `js_parser`, in a crate of their own, so that the parser is proved once.
#![tactic(auto)]

ghost use Rattle.std.specs.Prelude.{◌≤◌, length};

mod expressions;
mod faults;
mod operators;
mod printer;
mod shapes;
mod statements;
mod words;

use crate::faults::fault_text;
use crate::printer::{expression, program};
use crate::shapes::shape;
use js_parser::parse;
use js_tree::{Program, Stmt};
use row_files::{Answers, run};
use std::alloc::{AllocError, Global};

/// Reads a source: the answer is its fault, or `a script` in a group of faults, or its tree.
struct Scripts;

impl Answers for Scripts {
    fn answer(&self, alloc: Global, group: &str, fields: &[String]) -> Result<String, AllocError> {
        match fields {
            [named] if group.starts_with("shapes") => shape(alloc, named.as_str()),
            [source] if source.len() <= 1_048_576 => read(alloc, group, source.as_str()),
            _ => String::from_str(alloc, "no row of one source"),
        }
    }
}

fn read(alloc: Global, group: &str, source: &str) -> Result<String, AllocError>
    requires { length source.now ≤ 1048576 }
{
    match parse(alloc, source) {
        Ok(program) => tree_text(alloc, group, &program),
        Err(fault) => fault_text(alloc, fault),
    }
}

/// The tree as far as the group asks for it: not at all, its one expression alone, or whole.
fn tree_text(alloc: Global, group: &str, tree: &Program) -> Result<String, AllocError> {
    if group.starts_with("faults") {
        return String::from_str(alloc, "a script");
    }
    match tree.body.as_slice() {
        [Stmt::Expr(value)] if group.starts_with("expressions") => expression(alloc, value),
        _ => program(alloc, tree),
    }
}

fn main(rt: HostRuntime) -> anyhow::Result<()> {
    run(rt, &Scripts)
}
