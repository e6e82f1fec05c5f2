//! Statements by their first token, function declarations, and whole scripts (ECMA-262 5.1, sections 12 to 14).
ghost use Rattle.std.specs.Prelude.{◌≡◌, ◌≤◌, ◌<◌, ◌-◌, Some, None, IfOk, true};
ghost use Rattle.grammar.specs.Grammar.{first};
ghost use Rattle.grammar.specs.Reading.{read};
ghost use Rattle.js_lexer.specs.declared.token.Word.TheVariants.{Function};
ghost use Rattle.js_nodes.specs.Next as ahead;
ghost use Rattle.js_parser.specs.Statements as statements;
ghost use Rattle.js_parser.specs.Sources as sources;
ghost use Rattle.js_parser.specs.Sources.{level};
ghost use Rattle.js_cursor.specs.Reads.{Reads, Unfits};
ghost use Rattle.js_parser.specs.Nests.{Nests};
ghost use Rattle.js_nodes.specs.Classes as classes;

use crate::rules::{Answer, Ask, Rules};
use js_cursor::Cursor;
use js_lexer::{Kind, Punct, Token, Word};
use js_nodes::classes::{opens, requires_part};
use js_nodes::codes::code_number;
use js_nodes::nodes::{more_body, more_funs};
use js_nodes::{Body, Fault, Inside, NOTHING, ParseError, Said, State, stmt_node};
use js_tree::Stmt;

impl<F: Fn(&mut Cursor<'_>, u8, Ask) -> Result<Answer, ParseError>> Rules<F> {
    /// The statement that begins with this token, behind it.
    #[tactic(auto, unfolding(crate::specs::Sources::statement_kind, crate::specs::Sources::statement_by))]
    pub(crate) fn statement_by(
        &self,
        inside: Inside,
        room: u8,
        state: State,
        token: &Token,
        tokens: &mut Cursor<'_>,
    ) -> Result<Said, ParseError>
        requires nests { Nests (room - 1) (F.pre self.now.below) (F.post self.now.below) }
        requires few { room ≤ 128 }
        requires some { 0 < room }
        ensures value { Reads (read None (sources.statement_by room (level (room - 1)) inside state (Some token.now)) tokens.old) result tokens.new }
        ensures height { IfOk result (λ x. x.depth.height ≤ room) }
    {
        match &token.kind {
            Kind::Punct(Punct::LeftBrace) => self.block_statement(
                inside, room, state, token, tokens,
            ),
            Kind::Punct(Punct::Semicolon) => Ok(stmt_node(
                tokens.alloc(),
                Stmt::Empty,
                state,
                token.at,
                NOTHING,
            )?),
            Kind::Word(Word::Var) => self.var_statement(inside, room, state, token, tokens),
            Kind::Word(Word::If) => self.if_statement(inside, room, state, token, tokens),
            Kind::Word(Word::Do) => self.do_statement(inside, room, state, token, tokens),
            Kind::Word(Word::While) => self.while_statement(inside, room, state, token, tokens),
            Kind::Word(Word::For) => self.for_statement(inside, room, state, token, tokens),
            Kind::Word(Word::Continue) => tokens.jump(Stmt::Continue, state, token),
            Kind::Word(Word::Break) => tokens.jump(Stmt::Break, state, token),
            Kind::Word(Word::Return) => self.return_statement(inside, room, state, token, tokens),
            Kind::Word(Word::Throw) => self.throw_statement(inside, room, state, token, tokens),
            Kind::Word(Word::Switch) => self.switch_statement(inside, room, state, token, tokens),
            Kind::Word(Word::Try) => self.try_statement(inside, room, state, token, tokens),
            _ => Err(ParseError::Unfit),
        }
    }

    /// A statement that its first token tells.
    #[tactic(auto, unfolding(crate::specs::Sources::told_statement, js_cursor::specs::Words::sound))]
    pub(crate) fn told_statement(
        &self,
        inside: Inside,
        room: u8,
        state: State,
        token: &Token,
        tokens: &mut Cursor<'_>,
    ) -> Result<Said, ParseError>
        requires nests { Nests (room - 1) (F.pre self.now.below) (F.post self.now.below) }
        requires few { room ≤ 128 }
        requires some { 0 < room }
        requires next { first tokens.old None ≡ Some token.now }
        requires opens { classes.opens inside (Some token.now) ≡ true }
        ensures value { Reads (read None (sources.told_statement room (level (room - 1)) inside state) tokens.old) result tokens.new }
        ensures height { IfOk result (λ x. x.depth.height ≤ room) }
    {
        if requires_part(&token.kind) && room <= 1 {
            return Err(ParseError::Shown(Fault::Nesting(token.at)));
        }
        tokens.advance();
        self.statement_by(inside, room, state, token, tokens)
    }

    #[tactic(auto, using(crate::proofs::DecidedMay::opening_may), unfolding(crate::specs::Sources::statement, crate::specs::Sources::told_statement))]
    pub(crate) fn statement_some(
        &self,
        inside: Inside,
        room: u8,
        state: State,
        tokens: &mut Cursor<'_>,
    ) -> Result<Said, ParseError>
        requires nests { Nests (room - 1) (F.pre self.now.below) (F.post self.now.below) }
        requires few { room ≤ 128 }
        requires some { 0 < room }
        ensures value { Reads (read None (sources.statement room (level (room - 1)) inside state) tokens.old) result tokens.new }
        ensures height { IfOk result (λ x. x.depth.height ≤ room) }
    {
        let Some(token) = tokens.peek() else {
            return Err(ParseError::Unfit);
        };
        if opens(inside, token) {
            self.told_statement(inside, room, state, token, tokens)
        } else if tokens.begins_statement() {
            self.expression_statement(inside, room, state, tokens)
        } else {
            Err(ParseError::Unfit)
        }
    }

    /// A statement.
    pub(crate) fn statement(
        &self,
        inside: Inside,
        room: u8,
        state: State,
        tokens: &mut Cursor<'_>,
    ) -> Result<Said, ParseError>
        requires nests { 0 < room → Nests (room - 1) (F.pre self.now.below) (F.post self.now.below) }
        requires few { room ≤ 128 }
        ensures value { Reads (read None ((level room).statement inside state) tokens.old) result tokens.new }
        ensures height { IfOk result (λ x. x.depth.height ≤ room) }
    {
        if room == 0 {
            return Err(tokens.statement_too_deep(inside));
        }
        self.statement_some(inside, room, state, tokens)
    }

    /// A function declaration.
    #[tactic(auto, unfolding(crate::specs::Sources::declaration))]
    pub(crate) fn declaration(
        &self,
        room: u8,
        body: Body,
        tokens: &mut Cursor<'_>,
    ) -> Result<Body, ParseError>
        requires nests { Nests (room - 1) (F.pre self.now.below) (F.post self.now.below) }
        requires few { room ≤ 128 }
        requires some { 0 < room }
        requires word { ahead.says Function (first tokens.old None) ≡ true }
        requires within { body.depth.height ≤ room }
        ensures value { Reads (read None (sources.declaration (level (room - 1)) body) tokens.old) result tokens.new }
        ensures height { IfOk result (λ b. b.depth.height ≤ room) }
    {
        let at = tokens.place();
        tokens.advance();
        let name = tokens.name()?;
        let State { codes, vars } = body.state;
        let number = code_number(&codes)?;
        let all = self.function_code(room, Some(name), codes, tokens)?;
        Ok(more_funs(body.stmts, vars, body.funs, body.depth, number, at, all)?)
    }

    #[tactic(auto, using(crate::proofs::DecidedMay::declaration_may), unfolding(crate::specs::Sources::source))]
    pub(crate) fn source_some(
        &self,
        inside: Inside,
        room: u8,
        body: Body,
        tokens: &mut Cursor<'_>,
    ) -> Result<Body, ParseError>
        requires nests { Nests (room - 1) (F.pre self.now.below) (F.post self.now.below) }
        requires few { room ≤ 128 }
        requires some { 0 < room }
        requires within { body.depth.height ≤ room }
        ensures value { Reads (read None (sources.source room (level (room - 1)) inside body) tokens.old) result tokens.new }
        ensures height { IfOk result (λ b. b.depth.height ≤ room) }
    {
        if tokens.at_word(Word::Function) {
            return self.declaration(room, body, tokens);
        }
        let x = self.statement_some(inside, room, body.state, tokens)?;
        Ok(more_body(body.stmts, body.funs, body.depth, x)?)
    }

    /// A source element more of a body.
    pub(crate) fn source(
        &self,
        inside: Inside,
        room: u8,
        body: Body,
        tokens: &mut Cursor<'_>,
    ) -> Result<Body, ParseError>
        requires nests { 0 < room → Nests (room - 1) (F.pre self.now.below) (F.post self.now.below) }
        requires few { room ≤ 128 }
        requires within { body.depth.height ≤ room }
        ensures value { Reads (read None ((level room).source inside body) tokens.old) result tokens.new }
        ensures height { IfOk result (λ b. b.depth.height ≤ room) }
    {
        if room == 0 {
            return Err(tokens.source_too_deep(inside));
        }
        self.source_some(inside, room, body, tokens)
    }
}
