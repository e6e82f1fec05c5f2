//! What may follow an operand of a prefix operator.
ghost use Rattle.std.specs.Prelude.{◌≡◌, Some, None, ◌||◌, ◌&&◌};
ghost use Rattle.grammar.specs.Grammar.{first};
ghost use Rattle.js_nodes.specs.Operands as operands;
ghost use Rattle.js_cursor.specs.Questions as questions;
ghost use Rattle.js_cursor.specs.Reads.{Unfits};

use crate::cursor::Cursor;
use js_lexer::{Punct, Word};
use js_nodes::{After, Closer, Context, Fault, Inside, ParseError};

/// Where each statement may stand.
fn anywhere() -> Inside
    ensures { result ≡ questions.anywhere }
{
    Inside {
        turning: true,
        leaving: true,
        ..Inside::called()
    }
}

impl<'a> Cursor<'a> {
    /// Whether a statement begins here, wherever it may stand.
    pub fn starts(&self) -> bool
        ensures { result ≡ questions.starts (first self.now None) }
    {
        self.at_opening(anywhere()) || self.begins_statement()
    }

    /// Whether the next token ends a list of statements that this ends.
    fn ends_list(&self, after: After) -> bool
        ensures { result ≡ questions.ends_list after (first self.now None) }
    {
        (after.brace && self.at(Punct::RightBrace))
            || (after.case && self.at_case())
            || (after.end && self.peek().is_none())
    }

    /// Whether the next token goes on with the statement around.
    fn goes_on_around(&self, after: After) -> bool
        ensures { result ≡ questions.goes_on_around after (first self.now None) }
    {
        (after.otherwise && self.at_word(Word::Else)) || (after.repeat && self.at_word(Word::While))
    }

    /// Whether the next token may follow a statement.
    pub fn comes_after(&self, after: After) -> bool
        ensures { result ≡ questions.comes_after after (first self.now None) }
    {
        (after.statement && self.starts())
            || (after.declaration && self.at_word(Word::Function))
            || self.ends_list(after)
            || self.goes_on_around(after)
    }

    /// Whether the next token closes the expression.
    pub fn closes(&self, closer: Closer) -> bool
        ensures { result ≡ questions.closes closer (first self.now None) }
    {
        match closer {
            Closer::Statement(after) => {
                self.at(Punct::Semicolon) || (self.inserts() && self.comes_after(after))
            }
            Closer::Semicolon => self.at(Punct::Semicolon),
            Closer::Paren => self.at(Punct::RightParen),
            Closer::Bracket => self.at(Punct::RightBracket),
            Closer::Brace => self.at(Punct::RightBrace),
            Closer::Middle | Closer::Case => self.at(Punct::Colon),
        }
    }

    /// Whether the next token may follow a finished operand of a prefix operator.
    pub fn follows(&self, context: Context) -> bool
        ensures { result ≡ questions.follows context (first self.now None) }
    {
        self.continues(context) || self.closes(context.closer)
    }

    /// Whether a statement behind an inserted semicolon begins with a name that is left out.
    fn begins_left_out(&self, closer: Closer) -> bool
        ensures { result ≡ questions.begins_left_out closer (first self.now None) }
    {
        match closer {
            Closer::Statement(after) => {
                self.at_left_out_name() && self.inserts() && after.statement
            }
            _ => false,
        }
    }

    /// Why the next token fits nowhere behind an operand that is wrong so.
    pub fn flaw_shown(&self, context: Context, fault: Fault) -> ParseError
        ensures { Unfits (questions.flaw_shown context fault (first self.now None)) result }
    {
        if self.begins_left_out(context.closer) {
            ParseError::Shown(Fault::LeftOut(self.place()))
        } else if self.follows(context) {
            ParseError::Shown(fault)
        } else {
            ParseError::Unfit
        }
    }
}
