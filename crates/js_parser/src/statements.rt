//! Statements but for loops with heads and function declarations (ECMA-262 5.1, section 12).
ghost use Rattle.std.specs.Prelude.{◌≡◌, ◌≤◌, ◌<◌, ◌-◌, [], Some, None, IfOk, OnOk, true};
ghost use Rattle.grammar.specs.Grammar.{first};
ghost use Rattle.grammar.specs.Reading.{read};
ghost use Rattle.js_lexer.specs.declared.token.Word.TheVariants as w;
ghost use Rattle.js_nodes.specs.Next as ahead;
ghost use Rattle.js_nodes.specs.Operands as operands;
ghost use Rattle.js_parser.specs.Functions as functions;
ghost use Rattle.js_parser.specs.Statements as statements;
ghost use Rattle.js_parser.specs.Sources.{level};
ghost use Rattle.js_cursor.specs.Reads.{Reads};
ghost use Rattle.js_parser.specs.Nests.{Nests};

use crate::rules::{Answer, Ask, Rules};
use js_cursor::Cursor;
use js_lexer::{Punct, Token, Word};
use js_nodes::nodes::{Declared, more_decls, more_stmts};
use js_nodes::{
    Closer, Context, Decls, Depth, Fault, Inside, NOTHING, Operand, ParseError, Said, Series,
    State, stmt_node,
};
use js_tree::{Expr, FnCode, Stmt};
use page_units::Text;
use sqlite_items::{Boxed, Items};

impl<F: Fn(&mut Cursor<'_>, u8, Ask) -> Result<Answer, ParseError>> Rules<F> {
    /// One statement more.
    #[tactic(auto, unfolding(crate::specs::Statements::series_more))]
    pub(crate) fn series_more(
        &self,
        inside: Inside,
        room: u8,
        series: Series,
        tokens: &mut Cursor<'_>,
    ) -> Result<Series, ParseError>
        requires nests { Nests (room - 1) (F.pre self.now.below) (F.post self.now.below) }
        requires few { room ≤ 128 }
        requires some { 0 < room }
        requires within { series.depth.height < room }
        ensures value { Reads (read None (statements.series_more inside (level (room - 1)) series) tokens.old) result tokens.new }
        ensures height { IfOk result (λ y. y.depth.height < room) }
    {
        let x = self.statement_below(inside, room - 1, series.state, tokens)?;
        Ok(more_stmts(series.stmts, series.depth, x)?)
    }

    #[tactic(auto, unfolding(crate::specs::Statements::statements))]
    pub(crate) fn statements(
        &self,
        inside: Inside,
        room: u8,
        state: State,
        tokens: &mut Cursor<'_>,
    ) -> Result<Series, ParseError>
        requires nests { Nests (room - 1) (F.pre self.now.below) (F.post self.now.below) }
        requires few { room ≤ 128 }
        requires some { 0 < room }
        ensures value { Reads (read None (statements.statements inside (level (room - 1)) state) tokens.old) result tokens.new }
        ensures height { IfOk result (λ y. y.depth.height < room) }
    {
        let mut series = Series::new(tokens.alloc(), state);
        'statements: while tokens.in_block() {
            series = self.series_more(inside, room, series, tokens)?;
        }
        Ok(series)
    }

    /// A block behind its `{`.
    #[tactic(auto, unfolding(crate::specs::Statements::block))]
    pub(crate) fn block(
        &self,
        inside: Inside,
        room: u8,
        state: State,
        tokens: &mut Cursor<'_>,
    ) -> Result<Series, ParseError>
        requires nests { Nests (room - 1) (F.pre self.now.below) (F.post self.now.below) }
        requires few { room ≤ 128 }
        requires some { 0 < room }
        ensures value { Reads (read None (statements.block inside (level (room - 1)) state) tokens.old) result tokens.new }
        ensures height { IfOk result (λ y. y.depth.height < room) }
    {
        let series = self.statements(inside.in_braces(), room, state, tokens)?;
        tokens.take(Punct::RightBrace)?;
        Ok(series)
    }

    /// A block.
    #[tactic(auto, unfolding(crate::specs::Statements::braced))]
    pub(crate) fn braced(
        &self,
        inside: Inside,
        room: u8,
        state: State,
        tokens: &mut Cursor<'_>,
    ) -> Result<Series, ParseError>
        requires nests { Nests (room - 1) (F.pre self.now.below) (F.post self.now.below) }
        requires few { room ≤ 128 }
        requires some { 0 < room }
        ensures value { Reads (read None (statements.braced inside (level (room - 1)) state) tokens.old) result tokens.new }
        ensures height { IfOk result (λ y. y.depth.height < room) }
    {
        tokens.take(Punct::LeftBrace)?;
        self.block(inside, room, state, tokens)
    }

    #[tactic(auto, unfolding(crate::specs::Statements::block_statement))]
    pub(crate) fn block_statement(
        &self,
        inside: Inside,
        room: u8,
        state: State,
        token: &Token,
        tokens: &mut Cursor<'_>,
    ) -> Result<Said, ParseError>
        requires nests { Nests (room - 1) (F.pre self.now.below) (F.post self.now.below) }
        requires few { room ≤ 128 }
        requires some { 0 < room }
        ensures value { Reads (read None (statements.block_statement (level (room - 1)) inside state (Some token.now)) tokens.old) result tokens.new }
        ensures height { IfOk result (λ x. x.depth.height ≤ room) }
    {
        let series = self.block(inside, room, state, tokens)?;
        Ok(stmt_node(
            tokens.alloc(),
            Stmt::Block(series.stmts),
            series.state,
            token.at,
            series.depth,
        )?)
    }

    /// A declaration behind its name.
    #[tactic(auto, unfolding(crate::specs::Statements::initial, js_cursor::specs::Words::deeper, js_cursor::specs::Words::sound))]
    pub(crate) fn initial(
        &self,
        context: Context,
        room: u8,
        name: Text,
        decls: Decls,
        tokens: &mut Cursor<'_>,
    ) -> Result<Decls, ParseError>
        requires nests { Nests (room - 1) (F.pre self.now.below) (F.post self.now.below) }
        requires few { room ≤ 128 }
        requires some { 0 < room }
        requires within { decls.depth.height < room }
        ensures value { Reads (read None (statements.initial room (level (room - 1)) context name decls) tokens.old) result tokens.new }
        ensures height { IfOk result (λ d. d.depth.height < room) }
    {
        if !tokens.at(Punct::Assign) {
            let decl = Declared {
                name,
                value: None,
                depth: NOTHING,
            };
            return Ok(more_decls(decls.decls, decls.depth, decl, decls.state)?);
        }
        if room <= 1 {
            return Err(ParseError::Shown(Fault::Nesting(tokens.place())));
        }
        tokens.advance();
        let State { codes, vars } = decls.state;
        let y = self.assign_below(context, room - 1, codes, tokens)?;
        let state = State {
            codes: y.codes,
            vars,
        };
        let decl = Declared {
            name,
            value: Some(y.value),
            depth: y.depth,
        };
        Ok(more_decls(decls.decls, decls.depth, decl, state)?)
    }

    /// A comma and one declaration more.
    #[tactic(auto, unfolding(crate::specs::Statements::decl_more))]
    pub(crate) fn decl_more(
        &self,
        context: Context,
        room: u8,
        decls: Decls,
        tokens: &mut Cursor<'_>,
    ) -> Result<Decls, ParseError>
        requires nests { Nests (room - 1) (F.pre self.now.below) (F.post self.now.below) }
        requires few { room ≤ 128 }
        requires some { 0 < room }
        requires within { decls.depth.height < room }
        ensures value { Reads (read None (statements.decl_more room (level (room - 1)) context decls) tokens.old) result tokens.new }
        ensures height { IfOk result (λ d. d.depth.height < room) }
    {
        tokens.take(Punct::Comma)?;
        let name = tokens.name()?;
        self.initial(context, room, name, decls, tokens)
    }

    #[tactic(auto, unfolding(crate::specs::Statements::variables))]
    pub(crate) fn variables_some(
        &self,
        context: Context,
        room: u8,
        at: u32,
        name: Text,
        state: State,
        tokens: &mut Cursor<'_>,
    ) -> Result<Said, ParseError>
        requires nests { Nests (room - 1) (F.pre self.now.below) (F.post self.now.below) }
        requires few { room ≤ 128 }
        requires some { 0 < room }
        ensures value { Reads (read None (statements.variables room (level (room - 1)) context at name state) tokens.old) result tokens.new }
        ensures height { IfOk result (λ x. x.depth.height ≤ room) }
    {
        let mut decls = self.initial(
            context,
            room,
            name,
            Decls::new(tokens.alloc(), state),
            tokens,
        )?;
        'decls: while tokens.at(Punct::Comma) {
            decls = self.decl_more(context, room, decls, tokens)?;
        }
        Ok(stmt_node(
            tokens.alloc(),
            Stmt::Var(decls.decls),
            decls.state,
            at,
            decls.depth,
        )?)
    }

    /// The declarations of a `var` that stands here, behind the first name.
    pub(crate) fn variables(
        &self,
        context: Context,
        room: u8,
        at: u32,
        name: Text,
        state: State,
        tokens: &mut Cursor<'_>,
    ) -> Result<Said, ParseError>
        requires nests { 0 < room → Nests (room - 1) (F.pre self.now.below) (F.post self.now.below) }
        requires few { room ≤ 128 }
        ensures value { Reads (read None ((level room).variables context at name state) tokens.old) result tokens.new }
        ensures height { IfOk result (λ x. x.depth.height ≤ room) }
    {
        if room == 0 {
            return Err(tokens.operand_too_deep());
        }
        self.variables_some(context, room, at, name, state, tokens)
    }

    #[tactic(auto, unfolding(crate::specs::Statements::var_statement))]
    pub(crate) fn var_statement(
        &self,
        inside: Inside,
        room: u8,
        state: State,
        token: &Token,
        tokens: &mut Cursor<'_>,
    ) -> Result<Said, ParseError>
        requires nests { Nests (room - 1) (F.pre self.now.below) (F.post self.now.below) }
        requires few { room ≤ 128 }
        requires some { 0 < room }
        ensures value { Reads (read None (statements.var_statement room (level (room - 1)) inside state (Some token.now)) tokens.old) result tokens.new }
        ensures height { IfOk result (λ x. x.depth.height ≤ room) }
    {
        let name = tokens.name()?;
        let x = self.variables_some(
            Context::of(Closer::Statement(inside.after)),
            room,
            token.at,
            name,
            state,
            tokens,
        )?;
        tokens.semicolon()?;
        Ok(x)
    }

    /// An expression in parentheses.
    #[tactic(auto, unfolding(crate::specs::Statements::condition))]
    pub(crate) fn condition(
        &self,
        room: u8,
        codes: Items<FnCode>,
        tokens: &mut Cursor<'_>,
    ) -> Result<Operand, ParseError>
        requires nests { Nests (room - 1) (F.pre self.now.below) (F.post self.now.below) }
        requires few { room ≤ 128 }
        requires some { 0 < room }
        ensures value { Reads (read None (statements.condition (level (room - 1)) codes) tokens.old) result tokens.new }
        ensures height { IfOk result (λ x. x.depth.height < room) }
    {
        tokens.take(Punct::LeftParen)?;
        let x = self.expr_below(Context::of(Closer::Paren), room - 1, codes, tokens)?;
        tokens.take(Punct::RightParen)?;
        Ok(x)
    }

    /// An `else`, if there is one, behind the condition and what stands before it.
    #[tactic(auto, unfolding(crate::specs::Statements::else_part, js_cursor::specs::Words::word))]
    pub(crate) fn else_part(
        &self,
        inside: Inside,
        room: u8,
        token: &Token,
        test: Boxed<Expr>,
        depth: Depth,
        then: Said,
        tokens: &mut Cursor<'_>,
    ) -> Result<Said, ParseError>
        requires nests { Nests (room - 1) (F.pre self.now.below) (F.post self.now.below) }
        requires few { room ≤ 128 }
        requires some { 0 < room }
        requires within { depth.height < room }
        requires before { then.depth.height < room }
        ensures value { Reads (read None (statements.else_part (level (room - 1)) inside (Some token.now) test depth then) tokens.old) result tokens.new }
        ensures height { IfOk result (λ x. x.depth.height ≤ room) }
    {
        if tokens.at_word(Word::Else) {
            tokens.advance();
            return self.other_part(
                inside,
                room,
                token,
                test,
                depth.both(then.depth),
                then,
                tokens,
            );
        }
        Ok(stmt_node(
            tokens.alloc(),
            Stmt::If(test.into_inner(), then.stmt, None),
            then.state,
            token.at,
            depth.both(then.depth),
        )?)
    }

    /// An `else` behind its word, with the levels of all that stands before it.
    #[tactic(auto, unfolding(crate::specs::Statements::other_part))]
    pub(crate) fn other_part(
        &self,
        inside: Inside,
        room: u8,
        token: &Token,
        test: Boxed<Expr>,
        depth: Depth,
        then: Said,
        tokens: &mut Cursor<'_>,
    ) -> Result<Said, ParseError>
        requires nests { Nests (room - 1) (F.pre self.now.below) (F.post self.now.below) }
        requires few { room ≤ 128 }
        requires some { 0 < room }
        requires within { depth.height < room }
        ensures value { Reads (read None (statements.other_part (level (room - 1)) inside (Some token.now) test depth then) tokens.old) result tokens.new }
        ensures height { IfOk result (λ x. x.depth.height ≤ room) }
    {
        let other = self.statement_below(inside, room - 1, then.state, tokens)?;
        Ok(stmt_node(
            tokens.alloc(),
            Stmt::If(test.into_inner(), then.stmt, Some(other.stmt)),
            other.state,
            token.at,
            depth.both(other.depth),
        )?)
    }

    #[tactic(auto, unfolding(crate::specs::Statements::if_statement))]
    pub(crate) fn if_statement(
        &self,
        inside: Inside,
        room: u8,
        state: State,
        token: &Token,
        tokens: &mut Cursor<'_>,
    ) -> Result<Said, ParseError>
        requires nests { Nests (room - 1) (F.pre self.now.below) (F.post self.now.below) }
        requires few { room ≤ 128 }
        requires some { 0 < room }
        ensures value { Reads (read None (statements.if_statement (level (room - 1)) inside state (Some token.now)) tokens.old) result tokens.new }
        ensures height { IfOk result (λ x. x.depth.height ≤ room) }
    {
        let State { codes, vars } = state;
        let x = self.condition(room, codes, tokens)?;
        let state = State {
            codes: x.codes,
            vars,
        };
        let y = self.statement_below(inside.before_else(), room - 1, state, tokens)?;
        self.else_part(inside, room, token, x.value, x.depth, y, tokens)
    }

    #[tactic(auto, unfolding(crate::specs::Statements::do_statement))]
    pub(crate) fn do_statement(
        &self,
        inside: Inside,
        room: u8,
        state: State,
        token: &Token,
        tokens: &mut Cursor<'_>,
    ) -> Result<Said, ParseError>
        requires nests { Nests (room - 1) (F.pre self.now.below) (F.post self.now.below) }
        requires few { room ≤ 128 }
        requires some { 0 < room }
        ensures value { Reads (read None (statements.do_statement (level (room - 1)) inside state (Some token.now)) tokens.old) result tokens.new }
        ensures height { IfOk result (λ x. x.depth.height ≤ room) }
    {
        let y = self.statement_below(inside.in_do(), room - 1, state, tokens)?;
        tokens.take_word(Word::While)?;
        self.repeated(room, token, y, tokens)
    }

    /// The condition of a `do`, behind its body.
    #[tactic(auto, unfolding(crate::specs::Statements::repeated))]
    fn repeated(
        &self,
        room: u8,
        token: &Token,
        body: Said,
        tokens: &mut Cursor<'_>,
    ) -> Result<Said, ParseError>
        requires nests { Nests (room - 1) (F.pre self.now.below) (F.post self.now.below) }
        requires few { room ≤ 128 }
        requires some { 0 < room }
        requires within { body.depth.height < room }
        ensures value { Reads (read None (statements.repeated (level (room - 1)) (Some token.now) body) tokens.old) result tokens.new }
        ensures height { IfOk result (λ x. x.depth.height ≤ room) }
    {
        let State { codes, vars } = body.state;
        let x = self.condition(room, codes, tokens)?;
        let state = State {
            codes: x.codes,
            vars,
        };
        tokens.ended(
            Stmt::DoWhile(body.stmt, x.value.into_inner()),
            state,
            token.at,
            body.depth.both(x.depth),
        )
    }

    #[tactic(auto, unfolding(crate::specs::Statements::while_statement))]
    pub(crate) fn while_statement(
        &self,
        inside: Inside,
        room: u8,
        state: State,
        token: &Token,
        tokens: &mut Cursor<'_>,
    ) -> Result<Said, ParseError>
        requires nests { Nests (room - 1) (F.pre self.now.below) (F.post self.now.below) }
        requires few { room ≤ 128 }
        requires some { 0 < room }
        ensures value { Reads (read None (statements.while_statement (level (room - 1)) inside state (Some token.now)) tokens.old) result tokens.new }
        ensures height { IfOk result (λ x. x.depth.height ≤ room) }
    {
        let State { codes, vars } = state;
        let x = self.condition(room, codes, tokens)?;
        let state = State {
            codes: x.codes,
            vars,
        };
        let y = self.statement_below(inside.in_loop(), room - 1, state, tokens)?;
        Ok(stmt_node(
            tokens.alloc(),
            Stmt::While(x.value.into_inner(), y.stmt),
            y.state,
            token.at,
            x.depth.both(y.depth),
        )?)
    }
}
