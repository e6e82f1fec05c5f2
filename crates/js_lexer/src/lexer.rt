//! What is left of a script, with one character of foresight, and what it is cut into.
ghost use Rattle.std.specs.Prelude.{◌≡◌, ◌++◌, ◌≤◌, [], length, drop, IsTrue, IsFalse, OnOk, MatchOption};
ghost use Rattle.std.specs.Char.Escape.{encode_utf16};
ghost use Rattle.std.specs.Str.{chars};
ghost use Rattle.grammar.specs.Grammar.{first};
ghost use Rattle.placed_chars.specs.Chars.{placed, stop, is_end, AreWithin};
ghost use Rattle.js_lexer.specs.Chars as classes;
ghost use Rattle.js_lexer.specs.Chars.{of, is};

use crate::classes::is_digit;
use crate::token::Kind;
use page_units::{NoMemory, push_char};
use placed_chars::Characters;
use std::alloc::Global;
use std::marker::Model;

/// A token, without what stands before it.
#[derive(Drop)]
pub(crate) struct Lexeme {
    pub(crate) kind: Kind,
    pub(crate) at: u32,
    pub(crate) end: u32,
}

/// An input element: what a script is cut into.
#[derive(Drop)]
pub(crate) enum Element {
    /// White space, or a comment in one line.
    White,
    /// A line terminator, or a comment with one.
    Newline,
    /// A token.
    Lexeme(Lexeme),
}

/// What is left of a script.
#[derive(Drop)]
pub(crate) struct Lexer<'a> {
    chars: Characters<'a>,
    alloc: Global,
}

impl<'a> Model for Lexer<'a> {
    ghost use Rattle.std.specs.Prelude.{List};
    ghost use Rattle.placed_chars.specs.declared.chars.Char.{Char};
    ghost use Rattle.placed_chars.specs.Chars.{AreWithin};

    ghost Value = { List Char };

    ghost view = { λ p. p.chars };

    ghost invariant = { λ p. AreWithin 1048576 p.chars };
}

impl<'a> Lexer<'a> {
    /// The whole of a script.
    pub(crate) fn new(alloc: Global, source: &'a str) -> Lexer<'a>
        requires { length source.now ≤ 1048576 }
        ensures { result ≡ placed 0 (chars source.now) }
    {
        Lexer {
            chars: Characters::new(source),
            alloc,
        }
    }

    /// The allocator of the tokens' texts.
    pub(crate) fn alloc(&self) -> Global {
        self.alloc
    }

    /// The offset of the next character's first byte.
    pub(crate) fn place(&self) -> u32
        ensures { result ≡ (first self.now stop).at }
    {
        self.chars.here().at as u32
    }

    /// The offset of the byte behind the next character.
    pub(crate) fn past(&self) -> u32
        ensures { result ≡ (first self.now stop).past }
    {
        self.chars.here().past as u32
    }

    /// The next character, where there is one more.
    pub(crate) fn ahead(&self) -> Option<char>
        ensures { MatchOption result (IsTrue (is_end (first self.now stop).code) × (drop 1 self.now ≡ []))
            (λ c. (first self.now stop).code ≡ c) }
    {
        self.chars.ahead()
    }

    /// Whether the end is next.
    pub(crate) fn at_end(&self) -> bool
        ensures { result ≡ is 0x110000 (first self.now stop).code }
    {
        self.chars.here().code == 0x110000
    }

    /// Whether this is the next character.
    pub(crate) fn is_at(&self, c: char) -> bool
        ensures { result ≡ of (is c) (first self.now stop) }
    {
        self.ahead() == Some(c)
    }

    /// Goes past the next character.
    pub(crate) fn advance(&mut self)
        ensures { self.new ≡ drop 1 self.old }
    {
        self.chars.advance();
    }

    /// Whether a decimal digit is next.
    pub(crate) fn at_digit(&self) -> bool
        ensures { result ≡ of classes.is_digit (first self.now stop) }
    {
        self.ahead().is_some_and(is_digit)
    }

    /// Takes the next character, which isn't the end, and puts its units.
    pub(crate) fn push_next(&mut self, units: &mut Vec<u16>) -> Result<(), NoMemory>
        requires { IsFalse (is_end (first self.old stop).code) }
        ensures value { OnOk result (units.new.items ≡ units.old.items ++ encode_utf16 (first self.old stop).code) }
        ensures rest { OnOk result (self.new ≡ drop 1 self.old) }
    {
        if let Some(c) = self.ahead() {
            push_char(units, c)?;
            self.advance();
        }
        Ok(())
    }
}
