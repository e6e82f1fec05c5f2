//! What the next token shows.
ghost use Rattle.std.specs.Prelude.{◌≡◌, ◌≤◌, ◌<◌, Some, None, cond};
ghost use Rattle.grammar.specs.Grammar.{first};
ghost use Rattle.js_nodes.specs.Next as ahead;
ghost use Rattle.js_cursor.specs.Questions as questions;
ghost use Rattle.js_cursor.specs.Reads.{Unfits};

use crate::cursor::Cursor;
use js_lexer::{Kind, Punct, Token, Word};
use js_nodes::classes::{is_accessor, is_key};
use js_nodes::{Fault, Inside, KeyedEntries, Operand, ParseError};
use page_units::Text;

impl<'a> Cursor<'a> {
    /// Why no operand is read where no level is left.
    pub fn operand_too_deep(&self) -> ParseError
        ensures { Unfits (questions.operand_too_deep (first self.now None)) result }
    {
        if self.at_left_out() {
            ParseError::Shown(Fault::LeftOut(self.place()))
        } else if self.begins_operand() {
            ParseError::Shown(Fault::Nesting(self.place()))
        } else {
            ParseError::Unfit
        }
    }

    /// What is wrong with a primary expression that begins here.
    pub fn primary_flaw(&self, room: u8) -> Option<Fault>
        ensures { result ≡ questions.primary_flaw room (first self.now None) }
    {
        if self.at_left_out() {
            Some(Fault::LeftOut(self.place()))
        } else if self.at(Punct::LeftParen) && room <= 1 {
            Some(Fault::Nesting(self.place()))
        } else {
            None
        }
    }

    /// What is wrong with an entry whose key this token is.
    pub fn key_flaw(&self, room: u8, entries: &KeyedEntries, key: &Text) -> Option<Fault>
        requires { cond (ahead.of ahead.is_key (first self.now None)) (Some (ahead.text (first self.now None))) None ≡ Some key.now }
        ensures { result ≡ questions.key_flaw room entries.now (first self.now None) }
    {
        if entries.has_key(key) {
            Some(Fault::Syntax(self.place()))
        } else if room <= 1 {
            Some(Fault::Nesting(self.place()))
        } else {
            None
        }
    }

    /// What is wrong behind a key, if it is `get` or `set`.
    pub fn accessor_flaw(&self, key: &Token) -> Option<Fault>
        ensures { result ≡ questions.accessor_flaw (Some key.now) (first self.now None) }
    {
        match self.peek() {
            Some(next) => {
                if is_accessor(&key.kind) && is_key(&next.kind) {
                    Some(Fault::LeftOut(key.at))
                } else {
                    None
                }
            }
            None => None,
        }
    }

    /// What is wrong with a name behind `break` or `continue`, which would be a label.
    pub fn jump_label(&self) -> Option<Fault>
        ensures { result ≡ questions.jump_label (first self.now None) }
    {
        match self.peek() {
            Some(
                Token {
                    kind: Kind::Name(_),
                    at,
                    newline: false,
                    ..
                },
            ) => Some(Fault::LeftOut(*at)),
            _ => None,
        }
    }

    /// What is left out behind `throw` and a line terminator.
    pub fn thrown_left_out(&self) -> Option<Fault>
        ensures { result ≡ questions.thrown_left_out (first self.now None) }
    {
        if self.is_on_new_line() && self.at_left_out() {
            Some(Fault::LeftOut(self.place()))
        } else {
            None
        }
    }

    /// What is wrong where a `:` stands behind this expression statement.
    pub fn label_flaw(&self, x: &Operand) -> Option<Fault>
        ensures { result ≡ questions.label_flaw x.now (first self.now None) }
    {
        if x.is_bare_name() && self.at(Punct::Colon) {
            Some(Fault::LeftOut(x.at))
        } else {
            None
        }
    }

    /// Why no statement is read where no level is left.
    pub fn statement_too_deep(&self, inside: Inside) -> ParseError
        ensures { Unfits (questions.statement_too_deep inside (first self.now None)) result }
    {
        if self.at_left_out() {
            ParseError::Shown(Fault::LeftOut(self.place()))
        } else if self.at_opening(inside) || self.begins_statement() {
            ParseError::Shown(Fault::Nesting(self.place()))
        } else {
            ParseError::Unfit
        }
    }

    /// Why no source element is read where no level is left.
    pub fn source_too_deep(&self, inside: Inside) -> ParseError
        ensures { Unfits (questions.source_too_deep inside (first self.now None)) result }
    {
        if self.at_word(Word::Function) {
            ParseError::Shown(Fault::Nesting(self.place()))
        } else {
            self.statement_too_deep(inside)
        }
    }

    /// What the next token shows where it fits no rule, or the end, which is at this byte.
    pub fn misfit(&self, end: u32) -> Fault
        ensures { result ≡ questions.misfit end (first self.now None) }
    {
        match self.peek() {
            Some(token) => match token.kind {
                Kind::Word(Word::With | Word::Debugger) => Fault::LeftOut(token.at),
                _ => Fault::Syntax(token.at),
            },
            None => Fault::Syntax(end),
        }
    }
}
