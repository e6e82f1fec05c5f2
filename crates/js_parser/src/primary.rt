//! Primary expressions (ECMA-262 5.1, 11.1).
ghost use Rattle.std.specs.Prelude.{◌≡◌, ◌≤◌, ◌<◌, ◌-◌, Some, None, IfOk, drop, cond, true, nat_le};
ghost use Rattle.std.specs.Option.{option_copied};
ghost use Rattle.grammar.specs.Grammar.{first};
ghost use Rattle.grammar.specs.Reading.{read};
ghost use Rattle.js_nodes.specs.Next as ahead;
ghost use Rattle.js_nodes.specs.Operands as operands;
ghost use Rattle.js_parser.specs.Primary as primary;
ghost use Rattle.js_parser.specs.Sources.{level};
ghost use Rattle.js_cursor.specs.Reads.{Reads};
ghost use Rattle.js_parser.specs.Nests.{Nests};

use crate::rules::{Answer, Ask, Rules};
use js_cursor::Cursor;
use js_lexer::{Kind, Punct, Token, Word};
use js_nodes::classes::key_text;
use js_nodes::codes::code_number;
use js_nodes::nodes::{more_entries, more_values};
use js_nodes::{Closer, Context, Entries, Operand, ParseError, Row, node};
use js_tree::{Expr, FnCode};
use sqlite_items::Items;

impl<F: Fn(&mut Cursor<'_>, u8, Ask) -> Result<Answer, ParseError>> Rules<F> {
    /// One expression more of a row.
    #[tactic(auto, unfolding(crate::specs::Primary::item))]
    pub(crate) fn item(
        &self,
        context: Context,
        room: u8,
        row: Row,
        tokens: &mut Cursor<'_>,
    ) -> Result<Row, ParseError>
        requires nests { Nests (room - 1) (F.pre self.now.below) (F.post self.now.below) }
        requires few { room ≤ 128 }
        requires some { 0 < room }
        requires within { row.depth.height < room }
        ensures value { Reads (read None (primary.item (level (room - 1)) context row) tokens.old) result tokens.new }
        ensures height { IfOk result (λ r. r.depth.height < room) }
    {
        let x = self.assign_below(context, room - 1, row.codes, tokens)?;
        Ok(more_values(row.values, row.depth, x)?)
    }

    /// Behind a list's item: a comma with one more, or with none before the `]`.
    #[tactic(auto, unfolding(crate::specs::Primary::list_more))]
    pub(crate) fn list_more(
        &self,
        room: u8,
        row: Row,
        tokens: &mut Cursor<'_>,
    ) -> Result<Row, ParseError>
        requires nests { Nests (room - 1) (F.pre self.now.below) (F.post self.now.below) }
        requires few { room ≤ 128 }
        requires some { 0 < room }
        requires within { row.depth.height < room }
        ensures value { Reads (read None (primary.list_more (level (room - 1)) row) tokens.old) result tokens.new }
        ensures height { IfOk result (λ r. r.depth.height < room) }
    {
        tokens.take(Punct::Comma)?;
        if tokens.at(Punct::RightBracket) {
            Ok(row)
        } else {
            self.item(Context::of(Closer::Bracket), room, row, tokens)
        }
    }

    #[tactic(auto, unfolding(crate::specs::Primary::list_items))]
    pub(crate) fn list_items(
        &self,
        room: u8,
        codes: Items<FnCode>,
        tokens: &mut Cursor<'_>,
    ) -> Result<Row, ParseError>
        requires nests { Nests (room - 1) (F.pre self.now.below) (F.post self.now.below) }
        requires few { room ≤ 128 }
        requires some { 0 < room }
        ensures value { Reads (read None (primary.list_items (level (room - 1)) codes) tokens.old) result tokens.new }
        ensures height { IfOk result (λ r. r.depth.height < room) }
    {
        let mut row = self.item(
            Context::of(Closer::Bracket),
            room,
            Row::new(tokens.alloc(), codes),
            tokens,
        )?;
        'items: while tokens.at(Punct::Comma) {
            row = self.list_more(room, row, tokens)?;
        }
        tokens.take(Punct::RightBracket)?;
        Ok(row)
    }

    /// A list behind its `[`.
    #[tactic(auto, unfolding(crate::specs::Primary::list, js_cursor::specs::Words::sign))]
    pub(crate) fn list(
        &self,
        room: u8,
        codes: Items<FnCode>,
        tokens: &mut Cursor<'_>,
    ) -> Result<Row, ParseError>
        requires nests { Nests (room - 1) (F.pre self.now.below) (F.post self.now.below) }
        requires few { room ≤ 128 }
        requires some { 0 < room }
        ensures value { Reads (read None (primary.list (level (room - 1)) codes) tokens.old) result tokens.new }
        ensures height { IfOk result (λ r. r.depth.height < room) }
    {
        if tokens.at(Punct::RightBracket) {
            tokens.advance();
            Ok(Row::new(tokens.alloc(), codes))
        } else {
            self.list_items(room, codes, tokens)
        }
    }

    #[tactic(auto, unfolding(crate::specs::Primary::entry, js_cursor::specs::Words::sound, js_cursor::specs::Words::sign))]
    pub(crate) fn entry(
        &self,
        room: u8,
        object: Entries,
        tokens: &mut Cursor<'_>,
    ) -> Result<Entries, ParseError>
        requires nests { Nests (room - 1) (F.pre self.now.below) (F.post self.now.below) }
        requires few { room ≤ 128 }
        requires some { 0 < room }
        requires within { object.depth.height < room }
        ensures value { Reads (read None (primary.entry room (level (room - 1)) object) tokens.old) result tokens.new }
        ensures height { IfOk result (λ o. o.depth.height < room) }
    {
        let Some(token) = tokens.peek() else {
            return Err(ParseError::Unfit);
        };
        let Some(key) = key_text(tokens.alloc(), &token.kind)? else {
            return Err(ParseError::Unfit);
        };
        if let Some(fault) = tokens.key_flaw(room, &object.entries, &key) {
            return Err(ParseError::Shown(fault));
        }
        tokens.advance();
        if let Some(fault) = tokens.accessor_flaw(token) {
            return Err(ParseError::Shown(fault));
        }
        tokens.take(Punct::Colon)?;
        let x = self.assign_below(Context::of(Closer::Brace), room - 1, object.codes, tokens)?;
        Ok(more_entries(object.entries, object.depth, key, x)?)
    }

    /// Behind an object's entry: a comma with one more, or with none before the `}`.
    #[tactic(auto, unfolding(crate::specs::Primary::object_more))]
    pub(crate) fn object_more(
        &self,
        room: u8,
        object: Entries,
        tokens: &mut Cursor<'_>,
    ) -> Result<Entries, ParseError>
        requires nests { Nests (room - 1) (F.pre self.now.below) (F.post self.now.below) }
        requires few { room ≤ 128 }
        requires some { 0 < room }
        requires within { object.depth.height < room }
        ensures value { Reads (read None (primary.object_more room (level (room - 1)) object) tokens.old) result tokens.new }
        ensures height { IfOk result (λ o. o.depth.height < room) }
    {
        tokens.take(Punct::Comma)?;
        if tokens.at(Punct::RightBrace) {
            Ok(object)
        } else {
            self.entry(room, object, tokens)
        }
    }

    #[tactic(auto, unfolding(crate::specs::Primary::object_entries))]
    pub(crate) fn object_entries(
        &self,
        room: u8,
        codes: Items<FnCode>,
        tokens: &mut Cursor<'_>,
    ) -> Result<Entries, ParseError>
        requires nests { Nests (room - 1) (F.pre self.now.below) (F.post self.now.below) }
        requires few { room ≤ 128 }
        requires some { 0 < room }
        ensures value { Reads (read None (primary.object_entries room (level (room - 1)) codes) tokens.old) result tokens.new }
        ensures height { IfOk result (λ o. o.depth.height < room) }
    {
        let mut object = self.entry(room, Entries::new(tokens.alloc(), codes), tokens)?;
        'entries: while tokens.at(Punct::Comma) {
            object = self.object_more(room, object, tokens)?;
        }
        tokens.take(Punct::RightBrace)?;
        Ok(object)
    }

    /// An object behind its `{`.
    #[tactic(auto, unfolding(crate::specs::Primary::object, js_cursor::specs::Words::sign))]
    pub(crate) fn object(
        &self,
        room: u8,
        codes: Items<FnCode>,
        tokens: &mut Cursor<'_>,
    ) -> Result<Entries, ParseError>
        requires nests { Nests (room - 1) (F.pre self.now.below) (F.post self.now.below) }
        requires few { room ≤ 128 }
        requires some { 0 < room }
        ensures value { Reads (read None (primary.object room (level (room - 1)) codes) tokens.old) result tokens.new }
        ensures height { IfOk result (λ o. o.depth.height < room) }
    {
        if tokens.at(Punct::RightBrace) {
            tokens.advance();
            Ok(Entries::new(tokens.alloc(), codes))
        } else {
            self.object_entries(room, codes, tokens)
        }
    }

    /// A function expression behind its `function`.
    #[tactic(auto, unfolding(crate::specs::Primary::function))]
    pub(crate) fn function(
        &self,
        room: u8,
        codes: Items<FnCode>,
        token: &Token,
        tokens: &mut Cursor<'_>,
    ) -> Result<Operand, ParseError>
        requires nests { Nests (room - 1) (F.pre self.now.below) (F.post self.now.below) }
        requires few { room ≤ 128 }
        requires some { 0 < room }
        ensures value { Reads (read None (primary.function (level (room - 1)) codes (Some token.now)) tokens.old) result tokens.new }
        ensures height { IfOk result (λ x. x.depth.height ≤ room) }
    {
        let name = if tokens.at(Punct::LeftParen) {
            None
        } else {
            Some(tokens.name()?)
        };
        let number = code_number(&codes)?;
        let all = self.function_code(room, name, codes, tokens)?;
        Ok(node(
            tokens.alloc(),
            Expr::Fun(number),
            all.codes,
            token.at,
            all.depth,
        )?)
    }

    /// An expression behind its `(`.
    #[tactic(auto, unfolding(crate::specs::Primary::parens))]
    pub(crate) fn parens(
        &self,
        room: u8,
        codes: Items<FnCode>,
        token: &Token,
        tokens: &mut Cursor<'_>,
    ) -> Result<Operand, ParseError>
        requires nests { Nests (room - 1) (F.pre self.now.below) (F.post self.now.below) }
        requires few { room ≤ 128 }
        requires some { 0 < room }
        ensures value { Reads (read None (primary.parens (level (room - 1)) codes (Some token.now)) tokens.old) result tokens.new }
        ensures height { IfOk result (λ x. x.depth.height ≤ room) }
    {
        let x = self.expr_below(Context::of(Closer::Paren), room - 1, codes, tokens)?;
        tokens.take(Punct::RightParen)?;
        Ok(x.in_parentheses(token.at))
    }

    /// What begins with this token, behind it.
    #[tactic(auto, unfolding(crate::specs::Primary::primary_kind, crate::specs::Primary::primary_by))]
    pub(crate) fn primary_by(
        &self,
        room: u8,
        codes: Items<FnCode>,
        token: &Token,
        tokens: &mut Cursor<'_>,
    ) -> Result<Operand, ParseError>
        requires nests { Nests (room - 1) (F.pre self.now.below) (F.post self.now.below) }
        requires few { room ≤ 128 }
        requires some { 0 < room }
        ensures value { Reads (read None (primary.primary_by room (level (room - 1)) codes (Some token.now)) tokens.old) result tokens.new }
        ensures height { IfOk result (λ x. x.depth.height ≤ room) }
    {
        match &token.kind {
            Kind::Name(name) => tokens.leaf(Expr::Name(name.clone()?), codes, token),
            Kind::Num(number) => tokens.leaf(Expr::Num(*number), codes, token),
            Kind::Str(text) => tokens.leaf(Expr::Str(text.clone()?), codes, token),
            Kind::Word(Word::This) => tokens.leaf(Expr::This, codes, token),
            Kind::Word(Word::True) => tokens.leaf(Expr::Bool(true), codes, token),
            Kind::Word(Word::False) => tokens.leaf(Expr::Bool(false), codes, token),
            Kind::Word(Word::Null) => tokens.leaf(Expr::Null, codes, token),
            Kind::Word(Word::Function) => self.function(room, codes, token, tokens),
            Kind::Punct(Punct::LeftParen) => self.parens(room, codes, token, tokens),
            Kind::Punct(Punct::LeftBracket) => {
                let row = self.list(room, codes, tokens)?;
                let value = Expr::Array(row.values);
                Ok(node(tokens.alloc(), value, row.codes, token.at, row.depth)?)
            }
            Kind::Punct(Punct::LeftBrace) => {
                let object = self.object(room, codes, tokens)?;
                let value = Expr::Table(object.entries.into_items());
                Ok(node(tokens.alloc(), value, object.codes, token.at, object.depth)?)
            }
            _ => Err(ParseError::Unfit),
        }
    }

    #[tactic(auto, unfolding(crate::specs::Primary::primary, js_cursor::specs::Words::sound))]
    pub(crate) fn primary(
        &self,
        room: u8,
        codes: Items<FnCode>,
        tokens: &mut Cursor<'_>,
    ) -> Result<Operand, ParseError>
        requires nests { Nests (room - 1) (F.pre self.now.below) (F.post self.now.below) }
        requires few { room ≤ 128 }
        requires some { 0 < room }
        ensures value { Reads (read None (primary.primary room (level (room - 1)) codes) tokens.old) result tokens.new }
        ensures height { IfOk result (λ x. x.depth.height ≤ room) }
    {
        let Some(token) = tokens.peek() else {
            return Err(ParseError::Unfit);
        };
        if let Some(fault) = tokens.primary_flaw(room) {
            return Err(ParseError::Shown(fault));
        }
        if !tokens.at_primary() {
            return Err(ParseError::Unfit);
        }
        tokens.advance();
        self.primary_by(room, codes, token, tokens)
    }
}
