//! Whole scripts (ECMA-262 5.1, section 14).
ghost use Rattle.std.specs.Prelude.{◌≡◌, ◌≤◌, None, length, IfOk, OnOk};
ghost use Rattle.std.specs.Str.{chars};
ghost use Rattle.grammar.specs.Exactly.{Says, Exactly};
ghost use Rattle.grammar.specs.Grammar.{first};
ghost use Rattle.grammar.specs.Reading.{read};
ghost use Rattle.js_tree.specs.declared.code.Program.{Program};
ghost use Rattle.js_tree.specs.Valid.{IsValid};
ghost use Rattle.js_parser.specs.declared.fault.ScriptFault.{ScriptFault};
ghost use Rattle.js_parser.specs.Scripts as scripts;
ghost use Rattle.js_parser.specs.Scripts.{IsProgram, TokensFaultAt, IsScript, ScriptFaultAt, report};
ghost use Rattle.js_parser.specs.Sources as sources;
ghost use Rattle.js_parser.specs.Sources.{level};
ghost use Rattle.js_cursor.specs.Reads.{Reads};

use crate::fault::ScriptFault;
use crate::rules::{Rules, below};
use js_cursor::Cursor;
use js_lexer::{Token, lex};
use js_nodes::{Body, Inside, ParseError, State};
use js_tree::Program;
use sqlite_items::Items;
use std::alloc::Global;

/// A source element more of a body.
fn element(
    inside: Inside,
    room: u8,
    body: Body,
    tokens: &mut Cursor<'_>,
) -> Result<Body, ParseError>
    requires few { room ≤ 128 }
    requires within { body.depth.height ≤ room }
    ensures value { Reads (read None ((level room).source inside body) tokens.old) result tokens.new }
    ensures height { IfOk result (λ b. b.depth.height ≤ room) }
{
    Rules { below }.source_below(inside, room, body, tokens)
}

/// A whole program.
#[tactic(auto, unfolding(crate::specs::Sources::program))]
pub(crate) fn program(tokens: &mut Cursor<'_>) -> Result<Program, ParseError>
    ensures value { Reads (read None sources.program tokens.old) result tokens.new }
    ensures over { OnOk result (first tokens.new None ≡ None) }
{
    let mut body = Body::new(tokens.alloc(), Items::new(tokens.alloc()));
    'sources: while tokens.peek().is_some() {
        body = element(Inside::script(), 128, body, tokens)?;
    }
    let State { codes, vars } = body.state;
    Ok(Program {
        codes,
        body: body.stmts,
        vars: vars.into_items(),
        funs: body.funs,
    })
}

/// The program of a script's tokens; its end is at this byte.
fn parse_tokens(alloc: Global, tokens: &[Token], end: u32) -> Result<Program, ScriptFault>
    ensures { Says (IsProgram tokens.now) (TokensFaultAt end tokens.now) (report result) }
{
    let mut tokens = Cursor::new(alloc, tokens);
    match program(&mut tokens) {
        Ok(program) => Ok(program),
        Err(ParseError::Memory) => Err(ScriptFault::NoMemory),
        Err(ParseError::Shown(fault)) => Err(ScriptFault::of(fault)),
        Err(ParseError::Unfit) => Err(ScriptFault::of(tokens.misfit(end))),
    }
}

/// The program of a script: exactly where its tokens are one (ECMA-262 5.1, sections 11 to 14, in strict code, less what
/// pages may not use). The source has at most 2^20 bytes.
///
/// # Errors
///
/// The fault of the shortest front of the script that begins none, with its place; the faults of tokens come first. Or
/// `NoMemory`, where the allocator refused.
pub fn parse(alloc: Global, source: &str) -> Result<Program, ScriptFault>
    requires { length source.now ≤ 1048576 }
    ensures exactly { Exactly (IsScript (chars source.now))
        (ScriptFaultAt (length source.now) (chars source.now)) (report result) }
    // Each program is valid.
    ensures valid { IfOk result IsValid }
{
    match lex(alloc, source) {
        Ok(tokens) => parse_tokens(alloc, tokens.as_slice(), source.len() as u32),
        Err(fault) => Err(ScriptFault::of_lexer(fault)),
    }
}
