//! What was read of statements, with the levels that they take.
ghost use Rattle.std.specs.Prelude.{◌≡◌, ◌<◌, ◌+◌, [], false, IfOk};
ghost use Rattle.js_nodes.specs.Operands as operands;
ghost use Rattle.js_nodes.specs.Pieces as pieces;

use crate::depth::{Depth, NOTHING};
use crate::names::Names;
use js_tree::{Case, Decl, FnCode, Stmt};
use page_units::NoMemory;
use sqlite_items::{Boxed, Items};
use std::alloc::Global;

/// What statements add to what they stand in.
#[derive(Drop)]
pub struct State {
    /// The codes of all functions so far.
    pub codes: Items<FnCode>,
    /// The names that `var` declared so far in this body, each once.
    pub vars: Names,
}

/// A statement.
#[derive(Drop)]
pub struct Said {
    /// What it is.
    pub stmt: Boxed<Stmt>,
    /// What was added so far.
    pub state: State,
    /// Its levels.
    pub depth: Depth,
}

/// Statements.
#[derive(Drop)]
pub struct Series {
    /// What they are.
    pub stmts: Items<Stmt>,
    /// What was added so far.
    pub state: State,
    /// Their levels.
    pub depth: Depth,
}

/// The declarations of a `var`.
#[derive(Drop)]
pub struct Decls {
    /// What they are.
    pub decls: Items<Decl>,
    /// What was added so far.
    pub state: State,
    /// Their levels.
    pub depth: Depth,
}

/// The parts of a `switch`.
#[derive(Drop)]
pub struct Cases {
    /// What they are.
    pub cases: Items<Case>,
    /// What was added so far.
    pub state: State,
    /// Whether a `default` is among them.
    pub has_default: bool,
    /// Their levels.
    pub depth: Depth,
}

/// What was read of a body.
#[derive(Drop)]
pub struct Body {
    /// Its statements.
    pub stmts: Items<Stmt>,
    /// What was added so far.
    pub state: State,
    /// The numbers of the functions that it declares.
    pub funs: Items<u32>,
    /// The levels of its statements and declarations.
    pub depth: Depth,
}

/// A statement that begins here, over parts with these levels.
pub fn stmt_node(
    alloc: Global,
    stmt: Stmt,
    state: State,
    at: u32,
    depth: Depth,
) -> Result<Said, NoMemory>
    requires { depth.height < 255 }
    ensures value { IfOk result (λ x. x ≡ pieces.said stmt state at depth) }
    ensures height { IfOk result (λ x. x.depth.height ≡ depth.height + 1) }
{
    let stmt = Boxed::new(alloc, stmt)?;
    Ok(Said {
        stmt,
        state,
        depth: depth.raised(at),
    })
}

impl Series {
    /// No statement yet.
    pub fn new(alloc: Global, state: State) -> Series
        ensures { result ≡ pieces.series [] state operands.nothing }
    {
        Series {
            stmts: Items::new(alloc),
            state,
            depth: NOTHING,
        }
    }
}

impl Decls {
    /// No declaration yet.
    pub fn new(alloc: Global, state: State) -> Decls
        ensures { result ≡ pieces.decls [] state operands.nothing }
    {
        Decls {
            decls: Items::new(alloc),
            state,
            depth: NOTHING,
        }
    }
}

impl Cases {
    /// No part yet.
    pub fn new(alloc: Global, state: State) -> Cases
        ensures { result ≡ pieces.cases [] state false operands.nothing }
    {
        Cases {
            cases: Items::new(alloc),
            state,
            has_default: false,
            depth: NOTHING,
        }
    }
}
