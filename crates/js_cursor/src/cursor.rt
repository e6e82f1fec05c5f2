//! What is left of a script's tokens, with one token of foresight.
ghost use Rattle.std.specs.Prelude.{◌≡◌, None, Some, drop, map, bytes_eq, IsTrue, ◌↔◌};
ghost use Rattle.std.specs.Option.{option_copied};
ghost use Rattle.grammar.specs.Grammar.{first};
ghost use Rattle.grammar.specs.Reading.{read};
ghost use Rattle.js_nodes.specs.Next as ahead;
ghost use Rattle.js_cursor.specs.Words as words;
ghost use Rattle.js_cursor.specs.Reads.{Reads};

use js_lexer::{Kind, Punct, Token, Word};
use js_nodes::classes::is_left_out;
use js_nodes::{Fault, ParseError};
use page_units::Text;
use std::alloc::Global;
use std::marker::Model;

fn is_sign(a: Punct, b: Punct) -> bool
    ensures { IsTrue result ↔ (a ≡ b) }
{
    a == b
}

fn is_word(a: Word, b: Word) -> bool
    ensures { IsTrue result ↔ (a ≡ b) }
{
    a == b
}

/// Whether the two are one.
fn same_sign(a: Punct, b: Punct) -> bool
    ensures { result ≡ ahead.same_sign a b }
{
    is_sign(a, b)
}

/// Whether the two are one.
fn same_word(a: Word, b: Word) -> bool
    ensures { result ≡ ahead.same_word a b }
{
    is_word(a, b)
}

/// What is left of a script's tokens.
#[derive(Drop)]
pub struct Cursor<'a> {
    rest: &'a [Token],
    alloc: Global,
}

impl<'a> Model for Cursor<'a> {
    ghost use Rattle.std.specs.Prelude.{List, Option, Some, map};
    ghost use Rattle.js_lexer.specs.declared.token.Token.{Token};

    ghost Value = { List (Option Token) };

    ghost view = { λ p. map Some p.rest.now };
}

impl<'a> Cursor<'a> {
    /// The whole of a script.
    pub fn new(alloc: Global, tokens: &'a [Token]) -> Cursor<'a>
        ensures { result ≡ map Some tokens.now }
    {
        Cursor {
            rest: tokens,
            alloc,
        }
    }

    /// The allocator of the tree.
    pub fn alloc(&self) -> Global {
        self.alloc
    }

    /// The next token; None at the end.
    pub fn peek(&self) -> Option<&'a Token>
        ensures { option_copied result ≡ first self.now None }
    {
        self.rest.first()
    }

    /// The place of the next token; 0 at the end.
    pub fn place(&self) -> u32
        ensures { result ≡ ahead.place (first self.now None) }
    {
        match self.peek() {
            Some(token) => token.at,
            None => 0,
        }
    }

    /// Goes past the next token.
    pub fn advance(&mut self)
        ensures { self.new ≡ drop 1 self.old }
    {
        if let Some((_, rest)) = self.rest.split_first() {
            self.rest = rest;
        }
    }

    /// Whether a line terminator stands before the next token.
    pub fn is_on_new_line(&self) -> bool
        ensures { result ≡ ahead.is_on_new_line (first self.now None) }
    {
        match self.peek() {
            Some(token) => token.newline,
            None => false,
        }
    }

    /// Whether this is the next token.
    #[tactic(auto, unfolding(js_nodes::specs::Next::shows))]
    pub fn at(&self, sign: Punct) -> bool
        ensures { result ≡ ahead.shows sign (first self.now None) }
    {
        match self.peek() {
            Some(
                Token {
                    kind: Kind::Punct(punct),
                    ..
                },
            ) => same_sign(*punct, sign),
            _ => false,
        }
    }

    /// Whether this is the next token.
    #[tactic(auto, unfolding(js_nodes::specs::Next::says))]
    pub fn at_word(&self, word: Word) -> bool
        ensures { result ≡ ahead.says word (first self.now None) }
    {
        match self.peek() {
            Some(
                Token {
                    kind: Kind::Word(found),
                    ..
                },
            ) => same_word(*found, word),
            _ => false,
        }
    }

    /// Takes this token.
    #[tactic(auto, unfolding(crate::specs::Words::sign))]
    pub fn take(&mut self, sign: Punct) -> Result<(), ParseError>
        ensures { Reads (read None (words.sign sign) self.old) result self.new }
    {
        if self.at(sign) {
            self.advance();
            Ok(())
        } else {
            Err(ParseError::Unfit)
        }
    }

    /// Takes this token.
    #[tactic(auto, unfolding(crate::specs::Words::word))]
    pub fn take_word(&mut self, word: Word) -> Result<(), ParseError>
        ensures { Reads (read None (words.word word) self.old) result self.new }
    {
        if self.at_word(word) {
            self.advance();
            Ok(())
        } else {
            Err(ParseError::Unfit)
        }
    }

    /// Takes a name.
    #[tactic(auto, unfolding(crate::specs::Words::name, crate::specs::Words::sound))]
    pub fn name(&mut self) -> Result<Text, ParseError>
        ensures { Reads (read None words.name self.old) result self.new }
    {
        match self.peek() {
            Some(
                Token {
                    kind: Kind::Name(name),
                    at,
                    ..
                },
            ) => {
                if is_left_out(name) {
                    return Err(ParseError::Shown(Fault::LeftOut(*at)));
                }
                self.advance();
                Ok(name.clone()?)
            }
            _ => Err(ParseError::Unfit),
        }
    }
}
