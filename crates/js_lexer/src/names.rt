//! Names and reserved words.
ghost use Rattle.std.specs.Prelude.{◌≡◌, ◌++◌, drop, IsTrue};
ghost use Rattle.std.specs.Char.Escape.{encode_utf16};
ghost use Rattle.grammar.specs.Grammar.{first};
ghost use Rattle.grammar.specs.Reading.{read};
ghost use Rattle.placed_chars.specs.Chars.{stop};
ghost use Rattle.js_lexer.specs.Chars as chars;
ghost use Rattle.js_lexer.specs.Chars.{of, is};
ghost use Rattle.js_lexer.specs.Names as names;
ghost use Rattle.js_lexer.specs.Reads.{Reads, Gives};

use crate::classes::is_part;
use crate::fault::LexFault;
use crate::lexer::{Lexeme, Lexer};
use crate::token::Kind;
use crate::words::word_of;
use page_units::Text;

/// The reserved word that these units spell, and else the name.
fn kind_of_name(units: Vec<u16>) -> Result<Kind, LexFault>
    ensures { Gives (names.kind_of_name units.items) result }
{
    match word_of(units.as_slice()) {
        Some(word) => Ok(Kind::Word(word)),
        None => Ok(Kind::Name(Text::of_units(units)?)),
    }
}

impl<'a> Lexer<'a> {
    pub(crate) fn at_part(&self) -> bool
        ensures { result ≡ of chars.is_part (first self.now stop) }
    {
        self.ahead().is_some_and(is_part)
    }

    /// Takes the name or reserved word that begins here.
    #[tactic(auto, unfolding(crate::specs::Names::name))]
    pub(crate) fn name(&mut self) -> Result<Lexeme, LexFault>
        requires { IsTrue (of chars.starts_name (first self.old stop)) }
        ensures { Reads (read stop (names.name (first self.old stop)) (drop 1 self.old)) result self.new }
    {
        let at = self.place();
        let mut end = self.past();
        let mut units = Vec::new(self.alloc());
        self.push_next(&mut units)?;
        'chars: while self.at_part() {
            end = self.past();
            self.push_next(&mut units)?;
        }
        Ok(Lexeme {
            kind: kind_of_name(units)?,
            at,
            end,
        })
    }

    /// What is wrong with the backslash here, which stands in no text.
    #[tactic(auto, unfolding(crate::specs::Names::escaped_name))]
    pub(crate) fn escaped_name(&mut self) -> Result<Lexeme, LexFault>
        ensures { Reads (read stop (names.escaped_name (first self.old stop).at) (drop 1 self.old)) result self.new }
    {
        let back = self.place();
        self.advance();
        if !self.is_at('u') {
            return Err(LexFault::BadChar(back));
        }
        self.advance();
        self.hex_four(back)?;
        Err(LexFault::LeftOut(back))
    }
}
