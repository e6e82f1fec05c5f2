//! The codes of functions (ECMA-262 5.1, section 13).
ghost use Rattle.std.specs.Prelude.{◌≡◌, ◌≤◌, ◌<◌, ◌-◌, Some, None, [], length, slice_set, IfOk, IfErr, true};
ghost use Rattle.grammar.specs.Grammar.{first};
ghost use Rattle.grammar.specs.Reading.{read};
ghost use Rattle.js_nodes.specs.declared.fault.ParseError.TheVariants.{Memory};
ghost use Rattle.js_nodes.specs.Next as ahead;
ghost use Rattle.js_nodes.specs.Operands as operands;
ghost use Rattle.js_parser.specs.Functions as functions;
ghost use Rattle.js_parser.specs.Sources.{level};
ghost use Rattle.js_cursor.specs.Reads.{Reads};
ghost use Rattle.js_parser.specs.Nests.{Nests};

use crate::rules::{Answer, Ask, Rules};
use js_cursor::Cursor;
use js_lexer::Punct;
use js_nodes::codes::{blank, fill};
use js_nodes::{Body, Coded, Inside, Names, ParseError, State};
use js_tree::FnCode;
use page_units::Text;
use sqlite_items::Items;

#[tactic(auto, unfolding(crate::specs::Functions::some_parameters))]
pub(crate) fn some_parameters(tokens: &mut Cursor<'_>) -> Result<Names, ParseError>
    ensures { Reads (read None functions.some_parameters tokens.old) result tokens.new }
{
    let none = Names::new(tokens.alloc());
    let name = tokens.parameter(&none)?;
    let mut names = none.put(name)?;
    'names: while tokens.at(Punct::Comma) {
        names = tokens.more_parameters(names)?;
    }
    tokens.take(Punct::RightParen)?;
    Ok(names)
}

/// A function's parameters in their parentheses.
#[tactic(auto, unfolding(crate::specs::Functions::parameters, js_cursor::specs::Words::sign))]
pub(crate) fn parameters(tokens: &mut Cursor<'_>) -> Result<Names, ParseError>
    ensures { Reads (read None functions.parameters tokens.old) result tokens.new }
{
    tokens.take(Punct::LeftParen)?;
    if tokens.at(Punct::RightParen) {
        tokens.advance();
        Ok(Names::new(tokens.alloc()))
    } else {
        some_parameters(tokens)
    }
}

impl<F: Fn(&mut Cursor<'_>, u8, Ask) -> Result<Answer, ParseError>> Rules<F> {
    #[tactic(auto, unfolding(crate::specs::Functions::function_body))]
    pub(crate) fn function_body(
        &self,
        room: u8,
        codes: Items<FnCode>,
        tokens: &mut Cursor<'_>,
    ) -> Result<Body, ParseError>
        requires nests { Nests (room - 1) (F.pre self.now.below) (F.post self.now.below) }
        requires few { room ≤ 128 }
        requires some { 0 < room }
        ensures value { Reads (read None (functions.function_body (level (room - 1)) codes) tokens.old) result tokens.new }
        ensures height { IfOk result (λ b. b.depth.height < room) }
    {
        tokens.take(Punct::LeftBrace)?;
        let mut body = Body::new(tokens.alloc(), codes);
        'sources: while tokens.in_block() {
            body = self.source_below(Inside::called(), room - 1, body, tokens)?;
        }
        tokens.take(Punct::RightBrace)?;
        Ok(body)
    }

    /// A function's parameters and body.
    #[tactic(auto, unfolding(crate::specs::Functions::function_code))]
    pub(crate) fn function_code(
        &self,
        room: u8,
        name: Option<Text>,
        codes: Items<FnCode>,
        tokens: &mut Cursor<'_>,
    ) -> Result<Coded, ParseError>
        requires nests { Nests (room - 1) (F.pre self.now.below) (F.post self.now.below) }
        requires few { room ≤ 128 }
        requires some { 0 < room }
        ensures value { Reads (read None (functions.function_code (level (room - 1)) name codes) tokens.old) result tokens.new }
        ensures height { IfOk result (λ c. c.depth.height < room) }
    {
        let params = parameters(tokens)?;
        let number = codes.len();
        let mut codes = codes;
        codes.push(blank(tokens.alloc()))?;
        let body = self.function_body(room, codes, tokens)?;
        let State { mut codes, vars } = body.state;
        fill(
            &mut codes,
            number,
            FnCode {
                name,
                params: params.into_items(),
                vars: vars.into_items(),
                funs: body.funs,
                body: body.stmts,
            },
        );
        Ok(Coded {
            codes,
            depth: body.depth,
        })
    }
}
