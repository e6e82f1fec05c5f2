//! Texts and their escapes.
ghost use Rattle.std.specs.Prelude.{◌≡◌, ◌++◌, ◌∷◌, [], ◌+◌, ◌*◌, ◌<◌, drop, IsTrue, IfOk, OnOk};
ghost use Rattle.grammar.specs.Grammar.{first};
ghost use Rattle.grammar.specs.Reading.{read};
ghost use Rattle.placed_chars.specs.Chars.{stop};
ghost use Rattle.js_lexer.specs.Chars.{of, is};
ghost use Rattle.js_lexer.specs.Escapes as escapes;
ghost use Rattle.js_lexer.specs.Texts as texts;
ghost use Rattle.js_lexer.specs.Reads.{Reads, ReadsAs};

use crate::classes::is_terminator;
use crate::fault::LexFault;
use crate::lexer::{Lexeme, Lexer};
use crate::token::Kind;
use page_units::{NoMemory, Text, push_ascii, push_char};

fn push_unit(units: &mut Vec<u16>, unit: u16) -> Result<(), NoMemory>
    ensures { OnOk result (units.new.items ≡ units.old.items ++ unit ∷ []) }
{
    units.push(unit)?;
    Ok(())
}

/// Puts what this character behind a backslash stands for.
fn push_single(units: &mut Vec<u16>, c: char) -> Result<(), NoMemory>
    ensures { OnOk result (units.new.items ≡ units.old.items ++ texts.single c) }
{
    match c {
        'b' => push_ascii(units, b"\x08"),
        'f' => push_ascii(units, b"\x0c"),
        'n' => push_ascii(units, b"\n"),
        'r' => push_ascii(units, b"\r"),
        't' => push_ascii(units, b"\t"),
        'v' => push_ascii(units, b"\x0b"),
        _ => push_char(units, c),
    }
}

impl<'a> Lexer<'a> {
    /// Takes one more digit of an escape's value; its backslash stands at `back`.
    fn more_hex(&mut self, back: u32, value: u32) -> Result<u32, LexFault>
        requires { value < 4096 }
        ensures value { Reads (read stop (escapes.hex_digit back value) self.old) result self.new }
        ensures small { IfOk result (λ more. more < value * 16 + 16) }
    {
        let Some(digit) = self.hex_digit() else {
            return Err(LexFault::BadChar(back));
        };
        self.advance();
        Ok(value * 16 + digit)
    }

    fn hex_two(&mut self, back: u32) -> Result<u16, LexFault>
        ensures { Reads (read stop (escapes.hex_two back) self.old) result self.new }
    {
        let value = self.more_hex(back, 0)?;
        let value = self.more_hex(back, value)?;
        Ok(value as u16)
    }

    /// Takes the four digits of an escape, whose backslash stands at `back`.
    pub(crate) fn hex_four(&mut self, back: u32) -> Result<u16, LexFault>
        ensures { Reads (read stop (escapes.hex_four back) self.old) result self.new }
    {
        let value = self.more_hex(back, 0)?;
        let value = self.more_hex(back, value)?;
        let value = self.more_hex(back, value)?;
        let value = self.more_hex(back, value)?;
        Ok(value as u16)
    }

    /// Takes the rest of the escape of this character, which was taken.
    fn escaped(&mut self, back: u32, units: &mut Vec<u16>, c: char) -> Result<(), LexFault>
        ensures { ReadsAs (λ _. units.new.items) (read stop (texts.escaped back units.old.items c) self.old) result self.new }
    {
        match c {
            '0' if self.at_digit() => return Err(LexFault::BadChar(back)),
            '0' => push_unit(units, 0)?,
            'x' => push_unit(units, self.hex_two(back)?)?,
            'u' => push_unit(units, self.hex_four(back)?)?,
            '\r' if self.is_at('\n') => self.advance(),
            '\r' | '\n' | '\u{2028}' | '\u{2029}' => {}
            _ => push_single(units, c)?,
        }
        Ok(())
    }

    /// Takes an escape behind its backslash, which stands at `back` in the text that begins at `at`.
    #[tactic(auto, unfolding(crate::specs::Texts::escape))]
    fn escape(&mut self, at: u32, back: u32, units: &mut Vec<u16>) -> Result<(), LexFault>
        ensures { ReadsAs (λ _. units.new.items) (read stop (texts.escape at back units.old.items) self.old) result self.new }
    {
        let Some(c) = self.ahead() else {
            return Err(LexFault::UnclosedText(at));
        };
        if c != '0' && c.is_ascii_digit() {
            return Err(LexFault::BadChar(back));
        }
        self.advance();
        self.escaped(back, units, c)
    }

    fn in_text(&self, quote: char) -> bool
        ensures { result ≡ of (texts.in_text quote) (first self.now stop) }
    {
        self.ahead()
            .is_some_and(|c| c != quote && !is_terminator(c))
    }

    fn text_piece(&mut self, at: u32, quote: char, units: &mut Vec<u16>) -> Result<(), LexFault>
        requires { IsTrue (of (texts.in_text quote) (first self.old stop)) }
        ensures { ReadsAs (λ _. units.new.items) (read stop (texts.text_piece at quote units.old.items) self.old) result
            self.new }
    {
        if self.is_at('\\') {
            let back = self.place();
            self.advance();
            self.escape(at, back, units)
        } else {
            self.push_next(units)?;
            Ok(())
        }
    }

    /// Takes the rest of the text that begins at `at` with this quote.
    #[tactic(auto, unfolding(crate::specs::Texts::text))]
    pub(crate) fn text(&mut self, at: u32, quote: char) -> Result<Lexeme, LexFault>
        ensures { Reads (read stop (texts.text at quote) self.old) result self.new }
    {
        let mut units = Vec::new(self.alloc());
        'pieces: while self.in_text(quote) {
            self.text_piece(at, quote, &mut units)?;
        }
        if !self.is_at(quote) {
            return Err(LexFault::UnclosedText(at));
        }
        let end = self.past();
        self.advance();
        Ok(Lexeme {
            kind: Kind::Str(Text::of_units(units)?),
            at,
            end,
        })
    }
}
