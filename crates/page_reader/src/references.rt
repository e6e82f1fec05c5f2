//! References to characters. Each stands in what began at the byte `owner`, and its `&` at the byte
//! `at`.
ghost use Rattle.std.specs.Prelude.{◌≡◌, ◌+◌, ◌*◌, ◌≤◌, IfOk, IsTrue};
ghost use Rattle.std.specs.Char.{digit_value};
ghost use Rattle.grammar.specs.Grammar.{first};
ghost use Rattle.grammar.specs.Reading.{read};
ghost use Rattle.placed_chars.specs.Chars.{stop};
ghost use Rattle.page_reader.specs.References as form;
ghost use Rattle.page_reader.specs.Reads.{Reads};
ghost use Rattle.page_reader.specs.Rules as rules;

use crate::classes::{GREATEST_CODE, digit_value, is_scalar};
use crate::fault::{PageRule, ReadError};
use crate::reader::Reader;

/// The number with one more digit.
fn with_digit(base: u32, number: u32, code: u32) -> u32
    requires few { base ≤ 16 }
    requires small { number ≤ form.most_scalar }
    ensures { result ≡ number * base + digit_value code }
{
    number * base + digit_value(code)
}

impl<'a> Reader<'a> {
    fn in_number(&self, base: u32, number: u32) -> bool
        requires few { base ≤ 16 }
        requires small { number ≤ form.most_scalar }
        ensures { result ≡ form.number_goes base number (first self.now stop) }
    {
        let code = self.code();
        digit_value(code) < base && with_digit(base, number, code) <= GREATEST_CODE
    }

    /// Takes the digits of a reference and its `;`, and answers the character.
    #[tactic(auto, unfolding(crate::specs::References::number))]
    fn number(&mut self, owner: u32, at: u32, base: u32) -> Result<u32, ReadError>
        requires { base ≤ 16 }
        ensures value { Reads (read stop (form.number owner at base) self.old) result self.new }
        ensures small { IfOk result (λ c. c ≤ form.most_scalar) }
    {
        let mut number = 0;
        'digits: while self.in_number(base, number) {
            number = with_digit(base, number, self.code());
            self.advance();
        }
        if !self.is_at(';') || !is_scalar(number) {
            return Err(self.cut_off(owner, PageRule::BadReference, at));
        }
        self.advance();
        Ok(number)
    }

    /// Takes a reference by number behind its `#`.
    fn numeric(&mut self, owner: u32, at: u32) -> Result<u32, ReadError>
        ensures value { Reads (read stop (form.numeric owner at) self.old) result self.new }
        ensures small { IfOk result (λ c. c ≤ form.most_scalar) }
    {
        if !self.is_at('x') {
            return self.number(owner, at, 10);
        }
        self.advance();
        self.number(owner, at, 16)
    }

    fn letter(&mut self, owner: u32, at: u32, letter: u8) -> Result<(), ReadError>
        ensures { Reads (read stop (rules.must (form.stands letter) (form.bad_reference owner at))
            self.old) result self.new }
    {
        if self.code() != u32::from(letter) {
            return Err(self.cut_off(owner, PageRule::BadReference, at));
        }
        self.advance();
        Ok(())
    }

    /// Takes these letters, which are a reference to the character `c`.
    fn spelled(&mut self, owner: u32, at: u32, c: char, letters: &[u8]) -> Result<u32, ReadError>
        ensures value { Reads (read stop (form.spelled owner at c letters.now) self.old) result
            self.new }
        ensures same { IfOk result (λ found. found ≡ c) }
    {
        for letter in letters {
            self.letter(owner, at, *letter)?;
        }
        Ok(u32::from(c))
    }

    /// Takes the rest of `&amp;` or `&apos;` behind the `a`.
    fn named_a(&mut self, owner: u32, at: u32) -> Result<u32, ReadError>
        ensures value { Reads (read stop (form.named_a owner at) self.old) result self.new }
        ensures small { IfOk result (λ c. c ≤ form.most_scalar) }
    {
        if self.is_at('m') {
            self.advance();
            return self.spelled(owner, at, '&', b"p;");
        }
        if self.is_at('p') {
            self.advance();
            return self.spelled(owner, at, '\'', b"os;");
        }
        Err(self.cut_off(owner, PageRule::BadReference, at))
    }

    /// Takes a reference behind its `&`, and answers the character.
    #[tactic(auto, unfolding(crate::specs::References::reference))]
    pub(crate) fn reference(&mut self, owner: u32, at: u32) -> Result<u32, ReadError>
        ensures value { Reads (read stop (form.reference owner at) self.old) result self.new }
        ensures small { IfOk result (λ c. c ≤ form.most_scalar) }
    {
        if self.is_at('#') {
            self.advance();
            return self.numeric(owner, at);
        }
        if self.is_at('a') {
            self.advance();
            return self.named_a(owner, at);
        }
        if self.is_at('l') {
            self.advance();
            return self.spelled(owner, at, '<', b"t;");
        }
        if self.is_at('g') {
            self.advance();
            return self.spelled(owner, at, '>', b"t;");
        }
        if self.is_at('q') {
            self.advance();
            return self.spelled(owner, at, '"', b"uot;");
        }
        if self.is_at('n') {
            self.advance();
            return self.spelled(owner, at, '\u{A0}', b"bsp;");
        }
        Err(self.cut_off(owner, PageRule::BadReference, at))
    }
}
