//! The codes of functions while they are read (ECMA-262 5.1, section 13).
ghost use Rattle.std.specs.Prelude.{◌≡◌, [], length, slice_set, IfOk, IfErr};
ghost use Rattle.js_nodes.specs.declared.fault.ParseError.TheVariants.{Memory};
ghost use Rattle.js_nodes.specs.Operands as operands;
ghost use Rattle.js_nodes.specs.Pieces as pieces;

use crate::depth::NOTHING;
use crate::fault::ParseError;
use crate::names::Names;
use crate::series::{Body, State};
use js_tree::FnCode;
use sqlite_items::Items;
use std::alloc::Global;

/// The number of the next function's code. A source has fewer functions than it has bytes, so it is never too large.
pub fn code_number(codes: &Items<FnCode>) -> Result<u32, ParseError>
    ensures number { IfOk result (λ n. n ≡ length codes.now) }
    ensures error { IfErr result (λ e. e ≡ Memory) }
{
    match u32::try_from(codes.len()) {
        Ok(number) => Ok(number),
        Err(_) => Err(ParseError::Memory),
    }
}

/// Puts a code where its place was held.
pub fn fill(codes: &mut Items<FnCode>, number: usize, code: FnCode)
    ensures { codes.new ≡ slice_set codes.old number code }
{
    if number < codes.len() {
        codes.set(number, code);
    }
}

/// Holds the place of a code until its body ends.
pub fn blank(alloc: Global) -> FnCode
    ensures { result ≡ pieces.blank }
{
    FnCode {
        name: None,
        params: Items::new(alloc),
        vars: Items::new(alloc),
        funs: Items::new(alloc),
        body: Items::new(alloc),
    }
}

impl Body {
    /// Nothing yet, behind these codes.
    pub fn new(alloc: Global, codes: Items<FnCode>) -> Body
        ensures { result ≡ pieces.body [] (pieces.state codes []) [] operands.nothing }
    {
        Body {
            stmts: Items::new(alloc),
            state: State {
                codes,
                vars: Names::new(alloc),
            },
            funs: Items::new(alloc),
            depth: NOTHING,
        }
    }
}
