//! Reads a page's characters one by one.
ghost use Rattle.std.specs.Prelude.{◌≡◌, ◌++◌, ◌≤◌, ◌<◌, [], true, drop, length, OnOk};
ghost use Rattle.std.specs.Char.Escape.{encode_utf16};
ghost use Rattle.std.specs.Str.{chars};
ghost use Rattle.grammar.specs.Grammar.{first};
ghost use Rattle.grammar.specs.Reading.{read};
ghost use Rattle.placed_chars.specs.Chars.{placed, stop};
ghost use Rattle.page_reader.specs.declared.fault.ReadError.TheVariants as errors;
ghost use Rattle.page_reader.specs.Classes.{is, is_last};
ghost use Rattle.page_reader.specs.Rules as rules;
ghost use Rattle.page_reader.specs.Reads.{Reads};

use crate::classes::{END, is_end};
use crate::fault::{Fault, PageRule, ReadError};
use page_units::NoMemory;
use placed_chars::{Char, Characters};
use std::marker::Model;

/// How many bytes a page may have.
pub(crate) const PAGE_BYTES: usize = 1_048_576;

/// The characters of a page that are still to be read, the end as a last one. No place is behind the
/// greatest length of a page.
#[derive(Drop)]
pub(crate) struct Reader<'a> {
    characters: Characters<'a>,
}

impl<'a> Model for Reader<'a> {
    ghost use Rattle.std.specs.Prelude.{List};
    ghost use Rattle.placed_chars.specs.declared.chars.Char.{Char};
    ghost use Rattle.placed_chars.specs.Chars.{AreWithin};
    ghost use Rattle.page_reader.specs.Bounds.{page_bytes};

    ghost Value = { List Char };

    ghost view = { λ p. p.characters };

    ghost invariant = { λ p. AreWithin page_bytes p.characters };
}

/// The reading ends here, since this rule is broken at this byte.
pub(crate) fn broken(rule: PageRule, at: u32) -> ReadError
    ensures { result ≡ errors.Page (rules.fault rule at) }
{
    ReadError::Page(Fault { rule, at })
}

impl<'a> Reader<'a> {
    /// The characters of a whole page.
    pub(crate) fn new(text: &'a str) -> Reader<'a>
        requires { length text.now ≤ PAGE_BYTES }
        ensures { result ≡ placed 0 (chars text.now) }
    {
        Reader {
            characters: Characters::new(text),
        }
    }

    /// The next character.
    pub(crate) fn here(&self) -> Char
        ensures value { result ≡ first self.now stop }
        ensures ordered { result.at ≤ result.past }
        ensures within { result.past ≤ PAGE_BYTES }
    {
        self.characters.here()
    }

    /// The next character's code.
    pub(crate) fn code(&self) -> u32
        ensures { result ≡ (first self.now stop).code }
    {
        self.here().code
    }

    /// The next character's first byte.
    pub(crate) fn place(&self) -> u32
        ensures { result ≡ (first self.now stop).at }
    {
        self.here().at as u32
    }

    /// Whether the page's end is next.
    pub(crate) fn is_at_end(&self) -> bool
        ensures value { result ≡ is_last (first self.now stop).code }
        ensures over { result ≡ true → drop 1 self.now ≡ [] }
    {
        match self.characters.ahead() {
            Some(_) => false,
            None => self.code() == END,
        }
    }

    /// Whether the next character is this one.
    pub(crate) fn is_at(&self, c: char) -> bool
        ensures { result ≡ is c (first self.now stop).code }
    {
        self.code() == u32::from(c)
    }

    pub(crate) fn advance(&mut self)
        ensures { self.new ≡ drop 1 self.old }
    {
        self.characters.advance();
    }

    /// The page ends within what began at the byte `at`, or else this rule is broken at `place`.
    pub(crate) fn cut_off(&self, at: u32, rule: PageRule, place: u32) -> ReadError
        ensures { result ≡ errors.Page (rules.cut_off at (rules.fault rule place)
            (first self.now stop)) }
    {
        if is_end(self.code()) {
            broken(PageRule::Unclosed, at)
        } else {
            broken(rule, place)
        }
    }

    /// Takes this character.
    pub(crate) fn must(
        &mut self,
        c: char,
        at: u32,
        rule: PageRule,
        place: u32,
    ) -> Result<(), ReadError>
        ensures { Reads (read stop (rules.must (is c) (rules.cut_off at (rules.fault rule place)))
            self.old) result self.new }
    {
        if !self.is_at(c) {
            return Err(self.cut_off(at, rule, place));
        }
        self.advance();
        Ok(())
    }

    /// Takes the `>` of what began at the byte `at`.
    pub(crate) fn close(&mut self, at: u32) -> Result<(), ReadError>
        ensures { Reads (read stop (rules.closed at) self.old) result self.new }
    {
        if !self.is_at('>') {
            return Err(broken(PageRule::Unclosed, at));
        }
        self.advance();
        Ok(())
    }
}

/// Puts a character behind a text.
pub(crate) fn push_code(units: &mut Vec<u16>, code: u32) -> Result<(), NoMemory>
    requires { code < END }
    ensures { OnOk result (units.new.items ≡ units.old.items ++ encode_utf16 code) }
{
    if code < 0x10000 {
        units.push(code as u16)?;
    } else {
        units.push((0xD800 + (code - 0x10000) / 0x400) as u16)?;
        units.push((0xDC00 + (code - 0x10000) % 0x400) as u16)?;
    }
    Ok(())
}
