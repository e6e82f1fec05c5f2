//! Comments.
ghost use Rattle.std.specs.Prelude.{◌≡◌, false};
ghost use Rattle.grammar.specs.Grammar.{first};
ghost use Rattle.grammar.specs.Reading.{read, Got};
ghost use Rattle.placed_chars.specs.Chars.{stop};
ghost use Rattle.js_lexer.specs.Chars.{of, is_terminator};
ghost use Rattle.js_lexer.specs.Blanks as blanks;
ghost use Rattle.js_lexer.specs.Blanks.{inside};
ghost use Rattle.js_lexer.specs.Reads.{Reads};

use crate::classes::is_terminator;
use crate::fault::LexFault;
use crate::lexer::{Element, Lexer};

impl<'a> Lexer<'a> {
    fn in_line(&self) -> bool
        ensures { result ≡ blanks.line_goes tt (first self.now stop) }
    {
        self.ahead().is_some_and(|c| !is_terminator(c))
    }

    /// Takes the rest of a line behind its `//`.
    #[tactic(auto, unfolding(crate::specs::Blanks::line_comment))]
    pub(crate) fn line_comment(&mut self)
        ensures { read stop blanks.line_comment self.old ≡ Got tt self.new }
    {
        'chars: while self.in_line() {
            self.advance();
        }
    }

    fn in_block(&self, starred: bool) -> bool
        ensures { result ≡ blanks.block_goes (inside starred false) (first self.now stop) }
    {
        self.ahead().is_some_and(|c| !(starred && c == '/'))
    }

    fn at_terminator(&self) -> bool
        ensures { result ≡ of is_terminator (first self.now stop) }
    {
        self.ahead().is_some_and(is_terminator)
    }

    /// Takes a comment behind its `/*`, which stands at this place.
    #[tactic(auto, unfolding(crate::specs::Blanks::block_comment))]
    pub(crate) fn block_comment(&mut self, at: u32) -> Result<Element, LexFault>
        ensures { Reads (read stop (blanks.block_comment at) self.old) result self.new }
    {
        let mut starred = false;
        let mut newline = false;
        'chars: while self.in_block(starred) {
            starred = self.is_at('*');
            newline = newline || self.at_terminator();
            self.advance();
        }
        if !self.is_at('/') {
            return Err(LexFault::UnclosedComment(at));
        }
        self.advance();
        if newline {
            Ok(Element::Newline)
        } else {
            Ok(Element::White)
        }
    }
}
