//! The rules of a level stand on a function value that reads those of the level below, so that each is proved by itself.
ghost use Rattle.std.specs.Prelude.{◌≡◌, ◌≤◌, ◌<◌, ◌-◌, None, IfOk};
ghost use Rattle.grammar.specs.Reading.{read};
ghost use Rattle.js_parser.specs.Sources.{level};
ghost use Rattle.js_cursor.specs.Reads.{Reads};
ghost use Rattle.js_parser.specs.Nests.{Nests, Fits, ReadsAnswer, Low};

use js_cursor::Cursor;
use js_nodes::{Body, Context, Inside, Operand, ParseError, Said, State};
use js_tree::FnCode;
use page_units::Text;
use sqlite_items::Items;

/// What a rule asks of the level below.
#[derive(Drop)]
pub(crate) enum Ask {
    /// Operands whose operators bind at least so tightly.
    Binary(Context, u8, Items<FnCode>),
    /// An expression without commas.
    Assign(Context, Items<FnCode>),
    /// An expression.
    Expr(Context, Items<FnCode>),
    /// What stands behind `new`.
    Callee(Items<FnCode>),
    /// The expression of the first part of a head.
    First(Items<FnCode>),
    /// The declarations of a `var`.
    Variables(Context, u32, Text, State),
    /// A statement.
    Statement(Inside, State),
    /// A source element.
    Source(Inside, Body),
}

/// What was read.
#[derive(Drop)]
pub(crate) enum Answer {
    /// An expression.
    Operand(Operand),
    /// A statement.
    Said(Said),
    /// A body.
    Body(Body),
}

/// The rules, with what reads the level below.
#[derive(Clone, Copy)]
pub(crate) struct Rules<F> {
    pub(crate) below: F,
}

impl<F: Fn(&mut Cursor<'_>, u8, Ask) -> Result<Answer, ParseError>> Rules<F> {
    /// The same one level below.
    pub(crate) fn binary_below(
        &self,
        context: Context,
        room: u8,
        n: u8,
        codes: Items<FnCode>,
        tokens: &mut Cursor<'_>,
    ) -> Result<Operand, ParseError>
        requires nests { Nests room (F.pre self.now.below) (F.post self.now.below) }
        requires levels { n ≤ 10 }
        ensures value { Reads (read None ((level room).binary context n codes) tokens.old) result tokens.new }
        ensures height { IfOk result (λ x. x.depth.height ≤ room) }
    {
        match (self.below)(tokens, room, Ask::Binary(context, n, codes)) {
            Ok(Answer::Operand(x)) => Ok(x),
            Ok(_) => Err(ParseError::Memory),
            Err(error) => Err(error),
        }
    }

    /// The same one level below.
    pub(crate) fn assign_below(
        &self,
        context: Context,
        room: u8,
        codes: Items<FnCode>,
        tokens: &mut Cursor<'_>,
    ) -> Result<Operand, ParseError>
        requires nests { Nests room (F.pre self.now.below) (F.post self.now.below) }
        ensures value { Reads (read None ((level room).assign context codes) tokens.old) result tokens.new }
        ensures height { IfOk result (λ x. x.depth.height ≤ room) }
    {
        match (self.below)(tokens, room, Ask::Assign(context, codes)) {
            Ok(Answer::Operand(x)) => Ok(x),
            Ok(_) => Err(ParseError::Memory),
            Err(error) => Err(error),
        }
    }

    /// The same one level below.
    pub(crate) fn expr_below(
        &self,
        context: Context,
        room: u8,
        codes: Items<FnCode>,
        tokens: &mut Cursor<'_>,
    ) -> Result<Operand, ParseError>
        requires nests { Nests room (F.pre self.now.below) (F.post self.now.below) }
        ensures value { Reads (read None ((level room).expr context codes) tokens.old) result tokens.new }
        ensures height { IfOk result (λ x. x.depth.height ≤ room) }
    {
        match (self.below)(tokens, room, Ask::Expr(context, codes)) {
            Ok(Answer::Operand(x)) => Ok(x),
            Ok(_) => Err(ParseError::Memory),
            Err(error) => Err(error),
        }
    }

    /// The same one level below.
    pub(crate) fn callee_below(
        &self,
        room: u8,
        codes: Items<FnCode>,
        tokens: &mut Cursor<'_>,
    ) -> Result<Operand, ParseError>
        requires nests { Nests room (F.pre self.now.below) (F.post self.now.below) }
        ensures value { Reads (read None ((level room).callee codes) tokens.old) result tokens.new }
        ensures height { IfOk result (λ x. x.depth.height ≤ room) }
    {
        match (self.below)(tokens, room, Ask::Callee(codes)) {
            Ok(Answer::Operand(x)) => Ok(x),
            Ok(_) => Err(ParseError::Memory),
            Err(error) => Err(error),
        }
    }

    /// The same one level below.
    pub(crate) fn first_below(
        &self,
        room: u8,
        codes: Items<FnCode>,
        tokens: &mut Cursor<'_>,
    ) -> Result<Operand, ParseError>
        requires nests { Nests room (F.pre self.now.below) (F.post self.now.below) }
        ensures value { Reads (read None ((level room).first codes) tokens.old) result tokens.new }
        ensures height { IfOk result (λ x. x.depth.height ≤ room) }
    {
        match (self.below)(tokens, room, Ask::First(codes)) {
            Ok(Answer::Operand(x)) => Ok(x),
            Ok(_) => Err(ParseError::Memory),
            Err(error) => Err(error),
        }
    }

    /// The same one level below.
    pub(crate) fn variables_below(
        &self,
        context: Context,
        room: u8,
        at: u32,
        name: Text,
        state: State,
        tokens: &mut Cursor<'_>,
    ) -> Result<Said, ParseError>
        requires nests { Nests room (F.pre self.now.below) (F.post self.now.below) }
        ensures value { Reads (read None ((level room).variables context at name state) tokens.old) result tokens.new }
        ensures height { IfOk result (λ x. x.depth.height ≤ room) }
    {
        match (self.below)(tokens, room, Ask::Variables(context, at, name, state)) {
            Ok(Answer::Said(x)) => Ok(x),
            Ok(_) => Err(ParseError::Memory),
            Err(error) => Err(error),
        }
    }

    /// The same one level below.
    pub(crate) fn statement_below(
        &self,
        inside: Inside,
        room: u8,
        state: State,
        tokens: &mut Cursor<'_>,
    ) -> Result<Said, ParseError>
        requires nests { Nests room (F.pre self.now.below) (F.post self.now.below) }
        ensures value { Reads (read None ((level room).statement inside state) tokens.old) result tokens.new }
        ensures height { IfOk result (λ x. x.depth.height ≤ room) }
    {
        match (self.below)(tokens, room, Ask::Statement(inside, state)) {
            Ok(Answer::Said(x)) => Ok(x),
            Ok(_) => Err(ParseError::Memory),
            Err(error) => Err(error),
        }
    }

    /// The same one level below.
    pub(crate) fn source_below(
        &self,
        inside: Inside,
        room: u8,
        body: Body,
        tokens: &mut Cursor<'_>,
    ) -> Result<Body, ParseError>
        requires nests { Nests room (F.pre self.now.below) (F.post self.now.below) }
        requires within { body.depth.height ≤ room }
        ensures value { Reads (read None ((level room).source inside body) tokens.old) result tokens.new }
        ensures height { IfOk result (λ b. b.depth.height ≤ room) }
    {
        match (self.below)(tokens, room, Ask::Source(inside, body)) {
            Ok(Answer::Body(x)) => Ok(x),
            Ok(_) => Err(ParseError::Memory),
            Err(error) => Err(error),
        }
    }
}

/// What is asked, with so many levels left.
pub(crate) fn below(tokens: &mut Cursor<'_>, room: u8, ask: Ask) -> Result<Answer, ParseError>
    requires few { room ≤ 128 }
    requires fits { Fits room ask }
    ensures value { ReadsAnswer (level room) ask tokens.old result tokens.new }
    ensures height { Low room result }
{
    let rules = Rules { below };
    match ask {
        Ask::Binary(context, n, codes) => match rules.binary(context, room, n, codes, tokens) {
            Ok(x) => Ok(Answer::Operand(x)),
            Err(error) => Err(error),
        },
        Ask::Assign(context, codes) => match rules.assign(context, room, codes, tokens) {
            Ok(x) => Ok(Answer::Operand(x)),
            Err(error) => Err(error),
        },
        Ask::Expr(context, codes) => match rules.expr(context, room, codes, tokens) {
            Ok(x) => Ok(Answer::Operand(x)),
            Err(error) => Err(error),
        },
        Ask::Callee(codes) => match rules.callee(room, codes, tokens) {
            Ok(x) => Ok(Answer::Operand(x)),
            Err(error) => Err(error),
        },
        Ask::First(codes) => match rules.first(room, codes, tokens) {
            Ok(x) => Ok(Answer::Operand(x)),
            Err(error) => Err(error),
        },
        Ask::Variables(context, at, name, state) => {
            match rules.variables(context, room, at, name, state, tokens) {
                Ok(x) => Ok(Answer::Said(x)),
                Err(error) => Err(error),
            }
        }
        Ask::Statement(inside, state) => match rules.statement(inside, room, state, tokens) {
            Ok(x) => Ok(Answer::Said(x)),
            Err(error) => Err(error),
        },
        Ask::Source(inside, body) => match rules.source(inside, room, body, tokens) {
            Ok(b) => Ok(Answer::Body(b)),
            Err(error) => Err(error),
        },
    }
}
