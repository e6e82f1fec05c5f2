//! Statements that leave what they stand in, `switch`, `try` and expression statements (ECMA-262 5.1, 12.4, 12.7 to
//! 12.9, 12.11, 12.13 and 12.14).
ghost use Rattle.std.specs.Prelude.{◌≡◌, ◌≤◌, ◌<◌, ◌-◌, [], Some, None, IfOk, true};
ghost use Rattle.grammar.specs.Grammar.{first};
ghost use Rattle.grammar.specs.Reading.{read};
ghost use Rattle.js_nodes.specs.Next as ahead;
ghost use Rattle.js_nodes.specs.Operands as operands;
ghost use Rattle.js_parser.specs.Statements as statements;
ghost use Rattle.js_parser.specs.Sources.{level};
ghost use Rattle.js_cursor.specs.Reads.{Reads};
ghost use Rattle.js_parser.specs.Nests.{Nests};

use crate::rules::{Answer, Ask, Rules};
use js_cursor::Cursor;
use js_lexer::{Punct, Token, Word};
use js_nodes::nodes::more_cases;
use js_nodes::{
    Cases, Closer, Context, Depth, Inside, NOTHING, ParseError, Said, Series, State, stmt_node,
};
use js_tree::{Expr, Handler, Stmt};
use sqlite_items::{Boxed, Items};

impl<F: Fn(&mut Cursor<'_>, u8, Ask) -> Result<Answer, ParseError>> Rules<F> {
    /// A `return` behind its word.
    #[tactic(auto, unfolding(crate::specs::Statements::return_statement, js_cursor::specs::Rules::ended, js_cursor::specs::Rules::semi, js_cursor::specs::Words::sign))]
    pub(crate) fn return_statement(
        &self,
        inside: Inside,
        room: u8,
        state: State,
        token: &Token,
        tokens: &mut Cursor<'_>,
    ) -> Result<Said, ParseError>
        requires nests { Nests (room - 1) (F.pre self.now.below) (F.post self.now.below) }
        requires few { room ≤ 128 }
        requires some { 0 < room }
        ensures value { Reads (read None (statements.return_statement (level (room - 1)) inside state (Some token.now)) tokens.old) result tokens.new }
        ensures height { IfOk result (λ x. x.depth.height ≤ room) }
    {
        if tokens.ends() {
            return tokens.ended(Stmt::Return(None), state, token.at, NOTHING);
        }
        let State { codes, vars } = state;
        let x = self.expr_below(
            Context::of(Closer::Statement(inside.after)),
            room - 1,
            codes,
            tokens,
        )?;
        let state = State {
            codes: x.codes,
            vars,
        };
        tokens.ended(
            Stmt::Return(Some(x.value.into_inner())),
            state,
            token.at,
            x.depth,
        )
    }

    /// A `throw` behind its word.
    #[tactic(auto, unfolding(crate::specs::Statements::throw_statement))]
    pub(crate) fn throw_statement(
        &self,
        inside: Inside,
        room: u8,
        state: State,
        token: &Token,
        tokens: &mut Cursor<'_>,
    ) -> Result<Said, ParseError>
        requires nests { Nests (room - 1) (F.pre self.now.below) (F.post self.now.below) }
        requires few { room ≤ 128 }
        requires some { 0 < room }
        ensures value { Reads (read None (statements.throw_statement (level (room - 1)) inside state (Some token.now)) tokens.old) result tokens.new }
        ensures height { IfOk result (λ x. x.depth.height ≤ room) }
    {
        if let Some(fault) = tokens.thrown_left_out() {
            return Err(ParseError::Shown(fault));
        }
        if tokens.is_on_new_line() {
            return Err(ParseError::Unfit);
        }
        let State { codes, vars } = state;
        let x = self.expr_below(
            Context::of(Closer::Statement(inside.after)),
            room - 1,
            codes,
            tokens,
        )?;
        let state = State {
            codes: x.codes,
            vars,
        };
        tokens.ended(Stmt::Throw(x.value.into_inner()), state, token.at, x.depth)
    }

    /// A part of a `switch` behind its `:`.
    #[tactic(auto, unfolding(crate::specs::Statements::case_body))]
    pub(crate) fn case_body(
        &self,
        inside: Inside,
        room: u8,
        cases: Cases,
        test: Option<Boxed<Expr>>,
        tokens: &mut Cursor<'_>,
    ) -> Result<Cases, ParseError>
        requires nests { Nests (room - 1) (F.pre self.now.below) (F.post self.now.below) }
        requires few { room ≤ 128 }
        requires some { 0 < room }
        requires within { cases.depth.height < room }
        ensures value { Reads (read None (statements.case_body (level (room - 1)) inside cases test) tokens.old) result tokens.new }
        ensures height { IfOk result (λ y. y.depth.height < room) }
    {
        let mut series = Series::new(tokens.alloc(), cases.state);
        'statements: while tokens.in_case() {
            series = self.series_more(inside.in_switch(), room, series, tokens)?;
        }
        Ok(more_cases(cases.cases, cases.has_default, cases.depth, test, series)?)
    }

    /// A `case`.
    #[tactic(auto, unfolding(crate::specs::Statements::case_clause))]
    pub(crate) fn case_clause(
        &self,
        inside: Inside,
        room: u8,
        cases: Cases,
        tokens: &mut Cursor<'_>,
    ) -> Result<Cases, ParseError>
        requires nests { Nests (room - 1) (F.pre self.now.below) (F.post self.now.below) }
        requires few { room ≤ 128 }
        requires some { 0 < room }
        requires within { cases.depth.height < room }
        ensures value { Reads (read None (statements.case_clause (level (room - 1)) inside cases) tokens.old) result tokens.new }
        ensures height { IfOk result (λ y. y.depth.height < room) }
    {
        tokens.take_word(Word::Case)?;
        let State { codes, vars } = cases.state;
        let x = self.expr_below(Context::of(Closer::Case), room - 1, codes, tokens)?;
        tokens.take(Punct::Colon)?;
        let cases = Cases {
            cases: cases.cases,
            state: State {
                codes: x.codes,
                vars,
            },
            has_default: cases.has_default,
            depth: cases.depth.both(x.depth),
        };
        self.case_body(inside, room, cases, Some(x.value), tokens)
    }

    /// A `default`.
    #[tactic(auto, unfolding(crate::specs::Statements::default_clause))]
    pub(crate) fn default_clause(
        &self,
        inside: Inside,
        room: u8,
        cases: Cases,
        tokens: &mut Cursor<'_>,
    ) -> Result<Cases, ParseError>
        requires nests { Nests (room - 1) (F.pre self.now.below) (F.post self.now.below) }
        requires few { room ≤ 128 }
        requires some { 0 < room }
        requires within { cases.depth.height < room }
        ensures value { Reads (read None (statements.default_clause (level (room - 1)) inside cases) tokens.old) result tokens.new }
        ensures height { IfOk result (λ y. y.depth.height < room) }
    {
        if !tokens.at_word(Word::Default) || cases.has_default {
            return Err(ParseError::Unfit);
        }
        tokens.advance();
        tokens.take(Punct::Colon)?;
        let cases = Cases {
            cases: cases.cases,
            state: cases.state,
            has_default: true,
            depth: cases.depth,
        };
        self.case_body(inside, room, cases, None, tokens)
    }

    /// A part of a `switch`.
    #[tactic(auto, unfolding(crate::specs::Statements::case_part, crate::specs::Statements::case_clause, js_cursor::specs::Words::word))]
    pub(crate) fn case_part(
        &self,
        inside: Inside,
        room: u8,
        cases: Cases,
        tokens: &mut Cursor<'_>,
    ) -> Result<Cases, ParseError>
        requires nests { Nests (room - 1) (F.pre self.now.below) (F.post self.now.below) }
        requires few { room ≤ 128 }
        requires some { 0 < room }
        requires within { cases.depth.height < room }
        ensures value { Reads (read None (statements.case_part (level (room - 1)) inside cases) tokens.old) result tokens.new }
        ensures height { IfOk result (λ y. y.depth.height < room) }
    {
        if tokens.at_word(Word::Case) {
            self.case_clause(inside, room, cases, tokens)
        } else {
            self.default_clause(inside, room, cases, tokens)
        }
    }

    /// A `switch` behind its word.
    #[tactic(auto, unfolding(crate::specs::Statements::switch_statement))]
    pub(crate) fn switch_statement(
        &self,
        inside: Inside,
        room: u8,
        state: State,
        token: &Token,
        tokens: &mut Cursor<'_>,
    ) -> Result<Said, ParseError>
        requires nests { Nests (room - 1) (F.pre self.now.below) (F.post self.now.below) }
        requires few { room ≤ 128 }
        requires some { 0 < room }
        ensures value { Reads (read None (statements.switch_statement (level (room - 1)) inside state (Some token.now)) tokens.old) result tokens.new }
        ensures height { IfOk result (λ x. x.depth.height ≤ room) }
    {
        let State { codes, vars } = state;
        let x = self.condition(room, codes, tokens)?;
        tokens.take(Punct::LeftBrace)?;
        let state = State {
            codes: x.codes,
            vars,
        };
        self.switch_parts(inside, room, token, x.value, x.depth, state, tokens)
    }

    /// The parts of a `switch`.
    #[tactic(auto, unfolding(crate::specs::Statements::switch_cases))]
    fn switch_cases(
        &self,
        inside: Inside,
        room: u8,
        state: State,
        tokens: &mut Cursor<'_>,
    ) -> Result<Cases, ParseError>
        requires nests { Nests (room - 1) (F.pre self.now.below) (F.post self.now.below) }
        requires few { room ≤ 128 }
        requires some { 0 < room }
        ensures value { Reads (read None (statements.switch_cases (level (room - 1)) inside state) tokens.old)
            result tokens.new }
        ensures height { IfOk result (λ y. y.depth.height < room) }
    {
        let mut cases = Cases::new(tokens.alloc(), state);
        'parts: while tokens.at_case() {
            cases = self.case_part(inside, room, cases, tokens)?;
        }
        Ok(cases)
    }

    /// The parts of a `switch`, and the `}` behind them.
    #[tactic(auto, unfolding(crate::specs::Statements::switch_parts))]
    fn switch_parts(
        &self,
        inside: Inside,
        room: u8,
        token: &Token,
        test: Boxed<Expr>,
        depth: Depth,
        state: State,
        tokens: &mut Cursor<'_>,
    ) -> Result<Said, ParseError>
        requires nests { Nests (room - 1) (F.pre self.now.below) (F.post self.now.below) }
        requires few { room ≤ 128 }
        requires some { 0 < room }
        requires within { depth.height < room }
        ensures value { Reads (read None (statements.switch_parts (level (room - 1)) inside (Some token.now) test depth state) tokens.old) result tokens.new }
        ensures height { IfOk result (λ x. x.depth.height ≤ room) }
    {
        let cases = self.switch_cases(inside, room, state, tokens)?;
        tokens.take(Punct::RightBrace)?;
        Ok(stmt_node(
            tokens.alloc(),
            Stmt::Switch(test.into_inner(), cases.cases),
            cases.state,
            token.at,
            depth.both(cases.depth),
        )?)
    }

    /// The `finally` of a `try` without a `catch`.
    #[tactic(auto, unfolding(crate::specs::Statements::finally_part))]
    pub(crate) fn finally_part(
        &self,
        inside: Inside,
        room: u8,
        token: &Token,
        block: Series,
        tokens: &mut Cursor<'_>,
    ) -> Result<Said, ParseError>
        requires nests { Nests (room - 1) (F.pre self.now.below) (F.post self.now.below) }
        requires few { room ≤ 128 }
        requires some { 0 < room }
        requires within { block.depth.height < room }
        ensures value { Reads (read None (statements.finally_part (level (room - 1)) inside (Some token.now) block) tokens.old) result tokens.new }
        ensures height { IfOk result (λ x. x.depth.height ≤ room) }
    {
        tokens.take_word(Word::Finally)?;
        let last = self.braced(inside, room, block.state, tokens)?;
        let depth = block.depth.both(last.depth);
        Ok(stmt_node(
            tokens.alloc(),
            Stmt::Try(block.stmts, None, Some(last.stmts)),
            last.state,
            token.at,
            depth,
        )?)
    }

    /// The `finally` behind a `catch`, if there is one.
    #[tactic(auto, unfolding(crate::specs::Statements::caught, js_cursor::specs::Words::word))]
    pub(crate) fn caught(
        &self,
        inside: Inside,
        room: u8,
        token: &Token,
        stmts: Items<Stmt>,
        depth: Depth,
        handler: Handler,
        state: State,
        tokens: &mut Cursor<'_>,
    ) -> Result<Said, ParseError>
        requires nests { Nests (room - 1) (F.pre self.now.below) (F.post self.now.below) }
        requires few { room ≤ 128 }
        requires some { 0 < room }
        requires within { depth.height < room }
        ensures value { Reads (read None (statements.caught (level (room - 1)) inside (Some token.now) stmts depth handler state) tokens.old) result tokens.new }
        ensures height { IfOk result (λ x. x.depth.height ≤ room) }
    {
        if !tokens.at_word(Word::Finally) {
            return Ok(stmt_node(
                tokens.alloc(),
                Stmt::Try(stmts, Some(handler), None),
                state,
                token.at,
                depth,
            )?);
        }
        tokens.advance();
        let last = self.braced(inside, room, state, tokens)?;
        let depth = depth.both(last.depth);
        Ok(stmt_node(
            tokens.alloc(),
            Stmt::Try(stmts, Some(handler), Some(last.stmts)),
            last.state,
            token.at,
            depth,
        )?)
    }

    /// The `catch` of a `try`, with what stands behind it.
    #[tactic(auto, unfolding(crate::specs::Statements::catch_part))]
    pub(crate) fn catch_part(
        &self,
        inside: Inside,
        room: u8,
        token: &Token,
        block: Series,
        tokens: &mut Cursor<'_>,
    ) -> Result<Said, ParseError>
        requires nests { Nests (room - 1) (F.pre self.now.below) (F.post self.now.below) }
        requires few { room ≤ 128 }
        requires some { 0 < room }
        requires within { block.depth.height < room }
        ensures value { Reads (read None (statements.catch_part (level (room - 1)) inside (Some token.now) block) tokens.old) result tokens.new }
        ensures height { IfOk result (λ x. x.depth.height ≤ room) }
    {
        tokens.take_word(Word::Catch)?;
        tokens.take(Punct::LeftParen)?;
        let name = tokens.name()?;
        tokens.take(Punct::RightParen)?;
        let caught = self.braced(inside, room, block.state, tokens)?;
        let depth = block.depth.both(caught.depth);
        let handler = Handler {
            name,
            body: caught.stmts,
        };
        self.caught(
            inside,
            room,
            token,
            block.stmts,
            depth,
            handler,
            caught.state,
            tokens,
        )
    }

    /// A `try` behind its word.
    #[tactic(auto, using(crate::proofs::DecidedMay::catch_may), unfolding(crate::specs::Statements::try_statement))]
    pub(crate) fn try_statement(
        &self,
        inside: Inside,
        room: u8,
        state: State,
        token: &Token,
        tokens: &mut Cursor<'_>,
    ) -> Result<Said, ParseError>
        requires nests { Nests (room - 1) (F.pre self.now.below) (F.post self.now.below) }
        requires few { room ≤ 128 }
        requires some { 0 < room }
        ensures value { Reads (read None (statements.try_statement (level (room - 1)) inside state (Some token.now)) tokens.old) result tokens.new }
        ensures height { IfOk result (λ x. x.depth.height ≤ room) }
    {
        let block = self.braced(inside, room, state, tokens)?;
        if tokens.at_word(Word::Catch) {
            self.catch_part(inside, room, token, block, tokens)
        } else {
            self.finally_part(inside, room, token, block, tokens)
        }
    }

    #[tactic(auto, unfolding(crate::specs::Statements::expression_statement))]
    pub(crate) fn expression_statement(
        &self,
        inside: Inside,
        room: u8,
        state: State,
        tokens: &mut Cursor<'_>,
    ) -> Result<Said, ParseError>
        requires nests { Nests (room - 1) (F.pre self.now.below) (F.post self.now.below) }
        requires few { room ≤ 128 }
        requires some { 0 < room }
        ensures value { Reads (read None (statements.expression_statement (level (room - 1)) inside state) tokens.old) result tokens.new }
        ensures height { IfOk result (λ x. x.depth.height ≤ room) }
    {
        let State { codes, vars } = state;
        let x = self.expr_below(
            Context::of(Closer::Statement(inside.after)),
            room - 1,
            codes,
            tokens,
        )?;
        if let Some(fault) = tokens.label_flaw(&x) {
            return Err(ParseError::Shown(fault));
        }
        let state = State {
            codes: x.codes,
            vars,
        };
        tokens.ended(Stmt::Expr(x.value.into_inner()), state, x.at, x.depth)
    }
}
