//! Left-hand-side expressions (ECMA-262 5.1, 11.2).
ghost use Rattle.std.specs.Prelude.{◌≡◌, ◌≤◌, ◌<◌, ◌-◌, Some, None, IfOk, true};
ghost use Rattle.grammar.specs.Grammar.{first};
ghost use Rattle.grammar.specs.Reading.{read};
ghost use Rattle.js_lexer.specs.declared.token.Word.TheVariants as w;
ghost use Rattle.js_nodes.specs.Next as ahead;
ghost use Rattle.js_parser.specs.Chains as chains;
ghost use Rattle.js_parser.specs.Sources.{level};
ghost use Rattle.js_cursor.specs.Reads.{Reads};
ghost use Rattle.js_parser.specs.Nests.{Nests};
ghost use Rattle.js_nodes.specs.Classes as classes;

use crate::rules::{Answer, Ask, Rules};
use js_cursor::Cursor;
use js_lexer::{Kind, Punct, Token, Word};
use js_nodes::nodes::{call_node, new_node};
use js_nodes::{Closer, Context, Fault, Operand, ParseError, Row};
use js_tree::FnCode;
use sqlite_items::Items;

impl<F: Fn(&mut Cursor<'_>, u8, Ask) -> Result<Answer, ParseError>> Rules<F> {
    /// Behind an argument: a comma and one more.
    #[tactic(auto, unfolding(crate::specs::Chains::argument_more))]
    pub(crate) fn argument_more(
        &self,
        room: u8,
        row: Row,
        tokens: &mut Cursor<'_>,
    ) -> Result<Row, ParseError>
        requires nests { Nests (room - 1) (F.pre self.now.below) (F.post self.now.below) }
        requires few { room ≤ 128 }
        requires some { 0 < room }
        requires within { row.depth.height < room }
        ensures value { Reads (read None (chains.argument_more (level (room - 1)) row) tokens.old) result tokens.new }
        ensures height { IfOk result (λ r. r.depth.height < room) }
    {
        tokens.take(Punct::Comma)?;
        self.item(Context::of(Closer::Paren), room, row, tokens)
    }

    #[tactic(auto, unfolding(crate::specs::Chains::some_arguments))]
    pub(crate) fn some_arguments(
        &self,
        room: u8,
        codes: Items<FnCode>,
        tokens: &mut Cursor<'_>,
    ) -> Result<Row, ParseError>
        requires nests { Nests (room - 1) (F.pre self.now.below) (F.post self.now.below) }
        requires few { room ≤ 128 }
        requires some { 0 < room }
        ensures value { Reads (read None (chains.some_arguments (level (room - 1)) codes) tokens.old) result tokens.new }
        ensures height { IfOk result (λ r. r.depth.height < room) }
    {
        let mut row = self.item(
            Context::of(Closer::Paren),
            room,
            Row::new(tokens.alloc(), codes),
            tokens,
        )?;
        'items: while tokens.at(Punct::Comma) {
            row = self.argument_more(room, row, tokens)?;
        }
        tokens.take(Punct::RightParen)?;
        Ok(row)
    }

    /// Arguments behind their `(`.
    #[tactic(auto, unfolding(crate::specs::Chains::arguments, js_cursor::specs::Words::sign))]
    pub(crate) fn arguments(
        &self,
        room: u8,
        codes: Items<FnCode>,
        tokens: &mut Cursor<'_>,
    ) -> Result<Row, ParseError>
        requires nests { Nests (room - 1) (F.pre self.now.below) (F.post self.now.below) }
        requires few { room ≤ 128 }
        requires some { 0 < room }
        ensures value { Reads (read None (chains.arguments (level (room - 1)) codes) tokens.old) result tokens.new }
        ensures height { IfOk result (λ r. r.depth.height < room) }
    {
        if tokens.at(Punct::RightParen) {
            tokens.advance();
            Ok(Row::new(tokens.alloc(), codes))
        } else {
            self.some_arguments(room, codes, tokens)
        }
    }

    /// A property behind its `[`.
    #[tactic(auto, unfolding(crate::specs::Chains::index))]
    pub(crate) fn index(
        &self,
        room: u8,
        x: Operand,
        tokens: &mut Cursor<'_>,
    ) -> Result<Operand, ParseError>
        requires nests { Nests (room - 1) (F.pre self.now.below) (F.post self.now.below) }
        requires few { room ≤ 128 }
        requires some { 0 < room }
        requires within { x.depth.height < room }
        ensures value { Reads (read None (chains.index (level (room - 1)) x) tokens.old) result tokens.new }
        ensures height { IfOk result (λ y. y.depth.height ≤ room) }
    {
        let y = self.expr_below(Context::of(Closer::Bracket), room - 1, x.codes, tokens)?;
        tokens.indexed(x.value, x.at, x.depth, y)
    }

    /// A call behind its `(`.
    #[tactic(auto, unfolding(crate::specs::Chains::call))]
    pub(crate) fn call(
        &self,
        room: u8,
        x: Operand,
        tokens: &mut Cursor<'_>,
    ) -> Result<Operand, ParseError>
        requires nests { Nests (room - 1) (F.pre self.now.below) (F.post self.now.below) }
        requires few { room ≤ 128 }
        requires some { 0 < room }
        requires within { x.depth.height < room }
        ensures value { Reads (read None (chains.call (level (room - 1)) x) tokens.old) result tokens.new }
        ensures height { IfOk result (λ y. y.depth.height ≤ room) }
    {
        let row = self.arguments(room, x.codes, tokens)?;
        Ok(call_node(tokens.alloc(), x.value, x.at, x.depth, row)?)
    }

    /// What goes on with this token, behind it.
    #[tactic(auto, unfolding(crate::specs::Chains::link_by, crate::specs::Chains::link_kind))]
    pub(crate) fn link_by(
        &self,
        room: u8,
        x: Operand,
        token: &Token,
        tokens: &mut Cursor<'_>,
    ) -> Result<Operand, ParseError>
        requires nests { Nests (room - 1) (F.pre self.now.below) (F.post self.now.below) }
        requires few { room ≤ 128 }
        requires some { 0 < room }
        requires within { x.depth.height < room }
        ensures value { Reads (read None (chains.link_by (level (room - 1)) x (Some token.now)) tokens.old) result tokens.new }
        ensures height { IfOk result (λ y. y.depth.height ≤ room) }
    {
        match &token.kind {
            Kind::Punct(Punct::Dot) => tokens.member(room, x),
            Kind::Punct(Punct::LeftBracket) => self.index(room, x, tokens),
            _ => self.call(room, x, tokens),
        }
    }

    /// One property more.
    #[tactic(auto, unfolding(crate::specs::Chains::link, js_cursor::specs::Words::takes, js_cursor::specs::Words::sound))]
    pub(crate) fn access(
        &self,
        room: u8,
        x: Operand,
        tokens: &mut Cursor<'_>,
    ) -> Result<Operand, ParseError>
        requires nests { Nests (room - 1) (F.pre self.now.below) (F.post self.now.below) }
        requires few { room ≤ 128 }
        requires some { 0 < room }
        requires goes { ahead.of classes.is_access (first tokens.old None) ≡ true }
        ensures value { Reads (read None (chains.link classes.is_access room (level (room - 1)) x) tokens.old) result tokens.new }
        ensures height { IfOk result (λ y. y.depth.height ≤ room) }
    {
        let Some(token) = tokens.peek() else {
            return Err(ParseError::Unfit);
        };
        match x.depth.level_flaw(room) {
            Some(fault) => Err(ParseError::Shown(fault)),
            None => {
                tokens.advance();
                self.link_by(room, x, token, tokens)
            }
        }
    }

    /// One property or call more.
    #[tactic(auto, unfolding(crate::specs::Chains::link, js_cursor::specs::Words::takes, js_cursor::specs::Words::sound))]
    pub(crate) fn link(
        &self,
        room: u8,
        x: Operand,
        tokens: &mut Cursor<'_>,
    ) -> Result<Operand, ParseError>
        requires nests { Nests (room - 1) (F.pre self.now.below) (F.post self.now.below) }
        requires few { room ≤ 128 }
        requires some { 0 < room }
        requires goes { ahead.of classes.is_link (first tokens.old None) ≡ true }
        ensures value { Reads (read None (chains.link classes.is_link room (level (room - 1)) x) tokens.old) result tokens.new }
        ensures height { IfOk result (λ y. y.depth.height ≤ room) }
    {
        let Some(token) = tokens.peek() else {
            return Err(ParseError::Unfit);
        };
        match x.depth.level_flaw(room) {
            Some(fault) => Err(ParseError::Shown(fault)),
            None => {
                tokens.advance();
                self.link_by(room, x, token, tokens)
            }
        }
    }

    /// The arguments of a `new`, if there are any.
    #[tactic(auto, unfolding(crate::specs::Chains::new_arguments, js_cursor::specs::Words::sign))]
    pub(crate) fn new_arguments(
        &self,
        room: u8,
        codes: Items<FnCode>,
        tokens: &mut Cursor<'_>,
    ) -> Result<Row, ParseError>
        requires nests { Nests (room - 1) (F.pre self.now.below) (F.post self.now.below) }
        requires few { room ≤ 128 }
        requires some { 0 < room }
        ensures value { Reads (read None (chains.new_arguments (level (room - 1)) codes) tokens.old) result tokens.new }
        ensures height { IfOk result (λ r. r.depth.height < room) }
    {
        if tokens.at(Punct::LeftParen) {
            tokens.advance();
            self.arguments(room, codes, tokens)
        } else {
            Ok(Row::new(tokens.alloc(), codes))
        }
    }

    #[tactic(auto, unfolding(crate::specs::Chains::construction, js_cursor::specs::Words::deeper, js_cursor::specs::Words::sound))]
    pub(crate) fn construction(
        &self,
        room: u8,
        codes: Items<FnCode>,
        tokens: &mut Cursor<'_>,
    ) -> Result<Operand, ParseError>
        requires nests { Nests (room - 1) (F.pre self.now.below) (F.post self.now.below) }
        requires few { room ≤ 128 }
        requires some { 0 < room }
        requires word { ahead.says w.New (first tokens.old None) ≡ true }
        ensures value { Reads (read None (chains.construction room (level (room - 1)) codes) tokens.old) result tokens.new }
        ensures height { IfOk result (λ x. x.depth.height ≤ room) }
    {
        let at = tokens.place();
        if room <= 1 {
            return Err(ParseError::Shown(Fault::Nesting(at)));
        }
        tokens.advance();
        let x = self.callee_below(room - 1, codes, tokens)?;
        let row = self.new_arguments(room, x.codes, tokens)?;
        Ok(new_node(tokens.alloc(), x.value, at, x.depth, row)?)
    }

    #[tactic(auto, using(crate::proofs::DecidedMay::construction_may), unfolding(crate::specs::Chains::head))]
    pub(crate) fn head(
        &self,
        room: u8,
        codes: Items<FnCode>,
        tokens: &mut Cursor<'_>,
    ) -> Result<Operand, ParseError>
        requires nests { Nests (room - 1) (F.pre self.now.below) (F.post self.now.below) }
        requires few { room ≤ 128 }
        requires some { 0 < room }
        ensures value { Reads (read None (chains.head room (level (room - 1)) codes) tokens.old) result tokens.new }
        ensures height { IfOk result (λ x. x.depth.height ≤ room) }
    {
        if tokens.at_word(Word::New) {
            self.construction(room, codes, tokens)
        } else {
            self.primary(room, codes, tokens)
        }
    }

    #[tactic(auto, unfolding(crate::specs::Chains::callee))]
    pub(crate) fn callee_some(
        &self,
        room: u8,
        codes: Items<FnCode>,
        tokens: &mut Cursor<'_>,
    ) -> Result<Operand, ParseError>
        requires nests { Nests (room - 1) (F.pre self.now.below) (F.post self.now.below) }
        requires few { room ≤ 128 }
        requires some { 0 < room }
        ensures value { Reads (read None (chains.callee room (level (room - 1)) codes) tokens.old) result tokens.new }
        ensures height { IfOk result (λ x. x.depth.height ≤ room) }
    {
        let mut x = self.head(room, codes, tokens)?;
        'links: while tokens.at_access() {
            x = self.access(room, x, tokens)?;
        }
        Ok(x)
    }

    /// What stands behind `new`, before its arguments.
    pub(crate) fn callee(
        &self,
        room: u8,
        codes: Items<FnCode>,
        tokens: &mut Cursor<'_>,
    ) -> Result<Operand, ParseError>
        requires nests { 0 < room → Nests (room - 1) (F.pre self.now.below) (F.post self.now.below) }
        requires few { room ≤ 128 }
        ensures value { Reads (read None ((level room).callee codes) tokens.old) result tokens.new }
        ensures height { IfOk result (λ x. x.depth.height ≤ room) }
    {
        if room == 0 {
            return Err(tokens.operand_too_deep());
        }
        self.callee_some(room, codes, tokens)
    }

    #[tactic(auto, unfolding(crate::specs::Chains::left))]
    pub(crate) fn left(
        &self,
        room: u8,
        codes: Items<FnCode>,
        tokens: &mut Cursor<'_>,
    ) -> Result<Operand, ParseError>
        requires nests { Nests (room - 1) (F.pre self.now.below) (F.post self.now.below) }
        requires few { room ≤ 128 }
        requires some { 0 < room }
        ensures value { Reads (read None (chains.left room (level (room - 1)) codes) tokens.old) result tokens.new }
        ensures height { IfOk result (λ x. x.depth.height ≤ room) }
    {
        let mut x = self.head(room, codes, tokens)?;
        'links: while tokens.at_link() {
            x = self.link(room, x, tokens)?;
        }
        Ok(x)
    }
}
