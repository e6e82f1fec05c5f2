//! What was read of an expression, with the levels that it takes.
ghost use Rattle.std.specs.Prelude.{◌≡◌, ◌<◌, ◌+◌, [], MatchOption, IfOk};
ghost use Rattle.js_nodes.specs.Operands as operands;
ghost use Rattle.js_nodes.specs.Pieces as pieces;

use crate::depth::{Depth, NOTHING};
use crate::fault::Fault;
use crate::keyed::KeyedEntries;
use crate::operators::{is_delete, is_step};
use js_lexer::Kind;
use js_tree::{Expr, FnCode};
use page_units::NoMemory;
use sqlite_items::{Boxed, Items};
use std::alloc::Global;

/// An expression.
#[derive(Drop)]
pub struct Operand {
    /// What it is; in a box, since its drop is then one call.
    pub value: Boxed<Expr>,
    /// The codes of all functions so far.
    pub codes: Items<FnCode>,
    /// The place of its first token, a parenthesis included.
    pub at: u32,
    /// Its levels.
    pub depth: Depth,
}

/// Expressions in a row.
#[derive(Drop)]
pub struct Row {
    /// What they are.
    pub values: Items<Expr>,
    /// The codes of all functions so far.
    pub codes: Items<FnCode>,
    /// Their levels.
    pub depth: Depth,
}

/// An object's entries.
#[derive(Drop)]
pub struct Entries {
    /// What they are.
    pub entries: KeyedEntries,
    /// The codes of all functions so far.
    pub codes: Items<FnCode>,
    /// Their levels.
    pub depth: Depth,
}

/// An expression that may be left out.
#[derive(Drop)]
pub struct Part {
    /// What it is, where it stands.
    pub value: Option<Boxed<Expr>>,
    /// The codes of all functions so far.
    pub codes: Items<FnCode>,
    /// Its levels.
    pub depth: Depth,
}

/// The codes with that of a function whose body was read.
#[derive(Drop)]
pub struct Coded {
    /// The codes of all functions so far.
    pub codes: Items<FnCode>,
    /// The levels of the body.
    pub depth: Depth,
}

/// A node that begins here, over parts with these levels.
pub fn node(
    alloc: Global,
    value: Expr,
    codes: Items<FnCode>,
    at: u32,
    depth: Depth,
) -> Result<Operand, NoMemory>
    requires { depth.height < 255 }
    ensures value { IfOk result (λ x. x ≡ operands.operand value codes at (operands.raised at depth)) }
    ensures height { IfOk result (λ x. x.depth.height ≡ depth.height + 1) }
{
    let value = Boxed::new(alloc, value)?;
    Ok(Operand {
        value,
        codes,
        at,
        depth: depth.raised(at),
    })
}

/// What may be left out, as a statement holds it.
pub fn unboxed(value: Option<Boxed<Expr>>) -> Option<Expr>
    ensures { result ≡ value }
{
    match value {
        Some(value) => Some(value.into_inner()),
        None => None,
    }
}

impl Row {
    /// No expression yet.
    pub fn new(alloc: Global, codes: Items<FnCode>) -> Row
        ensures { result ≡ operands.row [] codes operands.nothing }
    {
        Row {
            values: Items::new(alloc),
            codes,
            depth: NOTHING,
        }
    }
}

impl Entries {
    /// No entry yet.
    pub fn new(alloc: Global, codes: Items<FnCode>) -> Entries
        ensures { result ≡ pieces.entries [] codes operands.nothing }
    {
        Entries {
            entries: KeyedEntries::new(alloc),
            codes,
            depth: NOTHING,
        }
    }
}

impl Operand {
    /// The same in parentheses, which begin here and take a level.
    pub fn in_parentheses(self, at: u32) -> Operand
        requires { self.depth.height < 255 }
        ensures value { result ≡ operands.operand self.value self.codes at (operands.raised at self.depth) }
        ensures height { result.depth.height ≡ self.depth.height + 1 }
    {
        Operand {
            value: self.value,
            codes: self.codes,
            at,
            depth: self.depth.raised(at),
        }
    }

    /// What is wrong with it as what is assigned.
    pub fn target_flaw(&self, room: u8) -> Option<Fault>
        ensures left { MatchOption result (self.now.depth.height < room) (λ _. Unit {0}) }
        ensures value { result ≡ operands.target_flaw room self.now }
    {
        if self.value.get().is_target() {
            self.depth.level_flaw(room)
        } else {
            Some(Fault::Syntax(self.at))
        }
    }

    /// Whether it is a name without parentheses.
    pub fn is_bare_name(&self) -> bool
        ensures { result ≡ operands.is_bare_name self.now }
    {
        self.value.get().is_name() && self.depth.height == 1
    }

    /// What is wrong with it behind this operator.
    pub fn prefix_flaw(&self, kind: &Kind) -> Option<Fault>
        ensures { result ≡ operands.prefix_flaw kind.now self.now }
    {
        if is_step(kind) && !self.value.get().is_target() {
            Some(Fault::Syntax(self.at))
        } else if is_delete(kind) && self.value.get().is_name() {
            Some(Fault::Syntax(self.depth.deepest))
        } else {
            None
        }
    }
}
