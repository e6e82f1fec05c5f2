//! `for` (ECMA-262 5.1, 12.6.3 and 12.6.4).
ghost use Rattle.std.specs.Prelude.{◌≡◌, ◌≤◌, ◌<◌, ◌-◌, Some, None, IfOk, true};
ghost use Rattle.grammar.specs.Grammar.{first};
ghost use Rattle.grammar.specs.Reading.{read};
ghost use Rattle.js_nodes.specs.Next as ahead;
ghost use Rattle.js_nodes.specs.Operands as operands;
ghost use Rattle.js_parser.specs.Expressions as expressions;
ghost use Rattle.js_parser.specs.Heads as heads;
ghost use Rattle.js_parser.specs.Sources.{level};
ghost use Rattle.js_cursor.specs.Reads.{Reads};
ghost use Rattle.js_parser.specs.Nests.{Nests};
ghost use Rattle.js_cursor.specs.Rules as rules;

use crate::rules::{Answer, Ask, Rules};
use js_cursor::Cursor;
use js_lexer::{Punct, Token, Word};
use js_nodes::names::name_of;
use js_nodes::{
    Closer, Context, Depth, Inside, NOTHING, Names, Operand, ParseError, Part, Said, State,
    stmt_node, unboxed,
};
use js_tree::{Expr, FnCode, Stmt};
use page_units::Text;
use sqlite_items::{Boxed, Items};

/// A name that may stand alone before `in`, and has no level as an expression.
pub(crate) fn lone_name(
    codes: Items<FnCode>,
    tokens: &mut Cursor<'_>,
) -> Result<Operand, ParseError>
    ensures value { Reads (read None (rules.lone_name codes) tokens.old) result tokens.new }
    ensures height { IfOk result (λ x. x.depth.height ≡ 1) }
{
    if tokens.at_name() {
        tokens.named_alone(codes)
    } else {
        Err(tokens.operand_too_deep())
    }
}

impl<F: Fn(&mut Cursor<'_>, u8, Ask) -> Result<Answer, ParseError>> Rules<F> {
    /// The expression of the first part of a head, whose statement has so many levels.
    #[tactic(auto, unfolding(crate::specs::Expressions::first))]
    pub(crate) fn first_some(
        &self,
        room: u8,
        codes: Items<FnCode>,
        tokens: &mut Cursor<'_>,
    ) -> Result<Operand, ParseError>
        requires nests { Nests (room - 1) (F.pre self.now.below) (F.post self.now.below) }
        requires few { room ≤ 128 }
        requires some { 0 < room }
        ensures value { Reads (read None (expressions.first room (level (room - 1)) codes) tokens.old) result tokens.new }
        ensures height { IfOk result (λ x. x.depth.height ≤ room) }
    {
        if room <= 1 {
            lone_name(codes, tokens)
        } else {
            self.expr_below(Context::first(), room - 1, codes, tokens)
        }
    }

    /// The same, where there may be no level.
    pub(crate) fn first(
        &self,
        room: u8,
        codes: Items<FnCode>,
        tokens: &mut Cursor<'_>,
    ) -> Result<Operand, ParseError>
        requires nests { 0 < room → Nests (room - 1) (F.pre self.now.below) (F.post self.now.below) }
        requires few { room ≤ 128 }
        ensures value { Reads (read None ((level room).first codes) tokens.old) result tokens.new }
        ensures height { IfOk result (λ x. x.depth.height ≤ room) }
    {
        if room == 0 {
            return Err(tokens.operand_too_deep());
        }
        self.first_some(room, codes, tokens)
    }

    /// An expression that may be left out, to the punctuator behind it.
    #[tactic(auto, unfolding(crate::specs::Heads::head_part, js_cursor::specs::Words::sign))]
    pub(crate) fn head_part(
        &self,
        closer: Closer,
        end: Punct,
        room: u8,
        codes: Items<FnCode>,
        tokens: &mut Cursor<'_>,
    ) -> Result<Part, ParseError>
        requires nests { Nests (room - 1) (F.pre self.now.below) (F.post self.now.below) }
        requires few { room ≤ 128 }
        requires some { 0 < room }
        ensures value { Reads (read None (heads.head_part (level (room - 1)) closer end codes) tokens.old) result tokens.new }
        ensures height { IfOk result (λ y. y.depth.height < room) }
    {
        if tokens.at(end) {
            tokens.advance();
            return Ok(Part {
                value: None,
                codes,
                depth: NOTHING,
            });
        }
        let x = self.expr_below(Context::of(closer), room - 1, codes, tokens)?;
        tokens.take(end)?;
        Ok(Part {
            value: Some(x.value),
            codes: x.codes,
            depth: x.depth,
        })
    }

    /// A `for` behind its first `;`.
    #[tactic(auto, unfolding(crate::specs::Heads::for_rest))]
    pub(crate) fn for_rest(
        &self,
        inside: Inside,
        room: u8,
        token: &Token,
        first: Option<Boxed<Stmt>>,
        state: State,
        depth: Depth,
        tokens: &mut Cursor<'_>,
    ) -> Result<Said, ParseError>
        requires nests { Nests (room - 1) (F.pre self.now.below) (F.post self.now.below) }
        requires few { room ≤ 128 }
        requires some { 0 < room }
        requires within { depth.height < room }
        ensures value { Reads (read None (heads.for_rest (level (room - 1)) inside (Some token.now) first state depth) tokens.old) result tokens.new }
        ensures height { IfOk result (λ x. x.depth.height ≤ room) }
    {
        let State { codes, vars } = state;
        let test = self.head_part(Closer::Semicolon, Punct::Semicolon, room, codes, tokens)?;
        let step = self.head_part(Closer::Paren, Punct::RightParen, room, test.codes, tokens)?;
        let state = State {
            codes: step.codes,
            vars,
        };
        let depth = depth.both(test.depth).both(step.depth);
        self.for_body(
            inside, room, token, first, test.value, step.value, state, depth, tokens,
        )
    }

    /// A `for` behind its head.
    #[tactic(auto, unfolding(crate::specs::Heads::for_body))]
    fn for_body(
        &self,
        inside: Inside,
        room: u8,
        token: &Token,
        first: Option<Boxed<Stmt>>,
        test: Option<Boxed<Expr>>,
        step: Option<Boxed<Expr>>,
        state: State,
        depth: Depth,
        tokens: &mut Cursor<'_>,
    ) -> Result<Said, ParseError>
        requires nests { Nests (room - 1) (F.pre self.now.below) (F.post self.now.below) }
        requires few { room ≤ 128 }
        requires some { 0 < room }
        requires within { depth.height < room }
        ensures value { Reads (read None (heads.for_body (level (room - 1)) inside (Some token.now) first test step state depth) tokens.old) result tokens.new }
        ensures height { IfOk result (λ x. x.depth.height ≤ room) }
    {
        let body = self.statement_below(inside.in_loop(), room - 1, state, tokens)?;
        Ok(stmt_node(
            tokens.alloc(),
            Stmt::For(first, unboxed(test), unboxed(step), body.stmt),
            body.state,
            token.at,
            depth.both(body.depth),
        )?)
    }

    /// A `for` behind its `in`.
    #[tactic(auto, unfolding(crate::specs::Heads::for_each))]
    pub(crate) fn for_each(
        &self,
        inside: Inside,
        room: u8,
        token: &Token,
        name: Text,
        state: State,
        tokens: &mut Cursor<'_>,
    ) -> Result<Said, ParseError>
        requires nests { Nests (room - 1) (F.pre self.now.below) (F.post self.now.below) }
        requires few { room ≤ 128 }
        requires some { 0 < room }
        ensures value { Reads (read None (heads.for_each (level (room - 1)) inside (Some token.now) name state) tokens.old) result tokens.new }
        ensures height { IfOk result (λ x. x.depth.height ≤ room) }
    {
        let State { codes, vars } = state;
        let x = self.expr_below(Context::of(Closer::Paren), room - 1, codes, tokens)?;
        tokens.take(Punct::RightParen)?;
        let state = State {
            codes: x.codes,
            vars,
        };
        self.each_body(inside, room, token, name, x.value, x.depth, state, tokens)
    }

    /// The same behind its head.
    #[tactic(auto, unfolding(crate::specs::Heads::each_body))]
    fn each_body(
        &self,
        inside: Inside,
        room: u8,
        token: &Token,
        name: Text,
        value: Boxed<Expr>,
        depth: Depth,
        state: State,
        tokens: &mut Cursor<'_>,
    ) -> Result<Said, ParseError>
        requires nests { Nests (room - 1) (F.pre self.now.below) (F.post self.now.below) }
        requires few { room ≤ 128 }
        requires some { 0 < room }
        requires within { depth.height < room }
        ensures value { Reads (read None (heads.each_body (level (room - 1)) inside (Some token.now) name value depth state) tokens.old) result tokens.new }
        ensures height { IfOk result (λ x. x.depth.height ≤ room) }
    {
        let body = self.statement_below(inside.in_loop(), room - 1, state, tokens)?;
        Ok(stmt_node(
            tokens.alloc(),
            Stmt::ForIn(name, value.into_inner(), body.stmt),
            body.state,
            token.at,
            depth.both(body.depth),
        )?)
    }

    /// A `for` behind its `var` and the first name.
    #[tactic(auto, unfolding(crate::specs::Heads::for_named, js_cursor::specs::Words::word))]
    pub(crate) fn for_named(
        &self,
        inside: Inside,
        room: u8,
        token: &Token,
        at: u32,
        state: State,
        name: Text,
        tokens: &mut Cursor<'_>,
    ) -> Result<Said, ParseError>
        requires nests { Nests (room - 1) (F.pre self.now.below) (F.post self.now.below) }
        requires few { room ≤ 128 }
        requires some { 0 < room }
        ensures value { Reads (read None (heads.for_named (level (room - 1)) inside (Some token.now) at state name) tokens.old) result tokens.new }
        ensures height { IfOk result (λ x. x.depth.height ≤ room) }
    {
        if tokens.at_word(Word::In) {
            tokens.advance();
            let state = state.declare(&name)?;
            self.for_each(inside, room, token, name, state, tokens)
        } else {
            self.for_listed(inside, room, token, at, state, name, tokens)
        }
    }

    /// The same, where no `in` stands behind the name.
    #[tactic(auto, unfolding(crate::specs::Heads::for_listed))]
    pub(crate) fn for_listed(
        &self,
        inside: Inside,
        room: u8,
        token: &Token,
        at: u32,
        state: State,
        name: Text,
        tokens: &mut Cursor<'_>,
    ) -> Result<Said, ParseError>
        requires nests { Nests (room - 1) (F.pre self.now.below) (F.post self.now.below) }
        requires few { room ≤ 128 }
        requires some { 0 < room }
        ensures value { Reads (read None (heads.for_listed (level (room - 1)) inside (Some token.now) at state name) tokens.old) result tokens.new }
        ensures height { IfOk result (λ x. x.depth.height ≤ room) }
    {
        let x = self.variables_below(Context::first(), room - 1, at, name, state, tokens)?;
        self.for_declared(inside, room, token, x, tokens)
    }

    /// The same behind all of its declarations.
    #[tactic(auto, unfolding(crate::specs::Heads::for_declared))]
    pub(crate) fn for_declared(
        &self,
        inside: Inside,
        room: u8,
        token: &Token,
        x: Said,
        tokens: &mut Cursor<'_>,
    ) -> Result<Said, ParseError>
        requires nests { Nests (room - 1) (F.pre self.now.below) (F.post self.now.below) }
        requires few { room ≤ 128 }
        requires some { 0 < room }
        requires within { x.depth.height < room }
        ensures value { Reads (read None (heads.for_declared (level (room - 1)) inside (Some token.now) x) tokens.old) result tokens.new }
        ensures height { IfOk result (λ y. y.depth.height ≤ room) }
    {
        tokens.take(Punct::Semicolon)?;
        self.for_rest(inside, room, token, Some(x.stmt), x.state, x.depth, tokens)
    }

    /// A `for` behind its `var`.
    #[tactic(auto, unfolding(crate::specs::Heads::for_variables))]
    pub(crate) fn for_variables(
        &self,
        inside: Inside,
        room: u8,
        token: &Token,
        at: u32,
        state: State,
        tokens: &mut Cursor<'_>,
    ) -> Result<Said, ParseError>
        requires nests { Nests (room - 1) (F.pre self.now.below) (F.post self.now.below) }
        requires few { room ≤ 128 }
        requires some { 0 < room }
        ensures value { Reads (read None (heads.for_variables (level (room - 1)) inside (Some token.now) at state) tokens.old) result tokens.new }
        ensures height { IfOk result (λ x. x.depth.height ≤ room) }
    {
        let name = tokens.name()?;
        self.for_named(inside, room, token, at, state, name, tokens)
    }

    /// A `for` behind the expression that its head begins with.
    #[tactic(auto, unfolding(crate::specs::Heads::for_expression))]
    pub(crate) fn for_expression(
        &self,
        inside: Inside,
        room: u8,
        token: &Token,
        vars: Names,
        x: Operand,
        tokens: &mut Cursor<'_>,
    ) -> Result<Said, ParseError>
        requires nests { Nests (room - 1) (F.pre self.now.below) (F.post self.now.below) }
        requires few { room ≤ 128 }
        requires some { 0 < room }
        ensures value { Reads (read None (heads.for_expression room (level (room - 1)) inside (Some token.now) vars x) tokens.old) result tokens.new }
        ensures height { IfOk result (λ y. y.depth.height ≤ room) }
    {
        if tokens.at_word(Word::In) && x.is_bare_name() {
            tokens.advance();
            let state = State {
                codes: x.codes,
                vars,
            };
            let name = name_of(tokens.alloc(), x.value)?;
            return self.for_each(inside, room, token, name, state, tokens);
        }
        self.for_first(inside, room, token, vars, x, tokens)
    }

    /// The same where the expression is the first part.
    #[tactic(auto, unfolding(crate::specs::Heads::for_first, js_cursor::specs::Words::takes, js_cursor::specs::Words::sound))]
    fn for_first(
        &self,
        inside: Inside,
        room: u8,
        token: &Token,
        vars: Names,
        x: Operand,
        tokens: &mut Cursor<'_>,
    ) -> Result<Said, ParseError>
        requires nests { Nests (room - 1) (F.pre self.now.below) (F.post self.now.below) }
        requires few { room ≤ 128 }
        requires some { 0 < room }
        ensures value { Reads (read None (heads.for_first room (level (room - 1)) inside (Some token.now) vars x) tokens.old) result tokens.new }
        ensures height { IfOk result (λ y. y.depth.height ≤ room) }
    {
        if !tokens.at(Punct::Semicolon) {
            return Err(ParseError::Unfit);
        }
        match x.depth.level_flaw(room - 1) {
            Some(fault) => Err(ParseError::Shown(fault)),
            None => {
                tokens.advance();
                let first = Boxed::new(tokens.alloc(), Stmt::Expr(x.value.into_inner()))?;
                let state = State {
                    codes: x.codes,
                    vars,
                };
                self.for_rest(
                    inside,
                    room,
                    token,
                    Some(first),
                    state,
                    x.depth.raised(x.at),
                    tokens,
                )
            }
        }
    }

    /// A `for` behind its `(`.
    #[tactic(auto, unfolding(crate::specs::Heads::for_head, js_cursor::specs::Words::sign))]
    pub(crate) fn for_head(
        &self,
        inside: Inside,
        room: u8,
        token: &Token,
        state: State,
        tokens: &mut Cursor<'_>,
    ) -> Result<Said, ParseError>
        requires nests { Nests (room - 1) (F.pre self.now.below) (F.post self.now.below) }
        requires few { room ≤ 128 }
        requires some { 0 < room }
        ensures value { Reads (read None (heads.for_head room (level (room - 1)) inside (Some token.now) state) tokens.old) result tokens.new }
        ensures height { IfOk result (λ x. x.depth.height ≤ room) }
    {
        if tokens.at(Punct::Semicolon) {
            tokens.advance();
            return self.for_rest(inside, room, token, None, state, NOTHING, tokens);
        }
        if tokens.at_word(Word::Var) {
            let at = tokens.place();
            tokens.advance();
            return self.for_variables(inside, room, token, at, state, tokens);
        }
        let State { codes, vars } = state;
        let x = self.first_below(room - 1, codes, tokens)?;
        self.for_expression(inside, room, token, vars, x, tokens)
    }

    /// A `for` behind its word.
    #[tactic(auto, unfolding(crate::specs::Heads::for_statement))]
    pub(crate) fn for_statement(
        &self,
        inside: Inside,
        room: u8,
        state: State,
        token: &Token,
        tokens: &mut Cursor<'_>,
    ) -> Result<Said, ParseError>
        requires nests { Nests (room - 1) (F.pre self.now.below) (F.post self.now.below) }
        requires few { room ≤ 128 }
        requires some { 0 < room }
        ensures value { Reads (read None (heads.for_statement room (level (room - 1)) inside state (Some token.now)) tokens.old) result tokens.new }
        ensures height { IfOk result (λ x. x.depth.height ≤ room) }
    {
        tokens.take(Punct::LeftParen)?;
        self.for_head(inside, room, token, state, tokens)
    }
}
