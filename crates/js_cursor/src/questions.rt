//! What the next token may begin.
ghost use Rattle.std.specs.Prelude.{◌≡◌, ◌≤◌, ◌<◌, Some, None, ◌||◌};
ghost use Rattle.grammar.specs.Grammar.{first};
ghost use Rattle.js_nodes.specs.Next as ahead;
ghost use Rattle.js_nodes.specs.Operators as operators;
ghost use Rattle.js_nodes.specs.Operands as operands;
ghost use Rattle.js_nodes.specs.Classes as classes;
ghost use Rattle.js_cursor.specs.Questions as questions;

use crate::cursor::Cursor;
use js_lexer::{Punct, Word};
use js_nodes::classes::{
    begins_primary, is_access, is_left_out_name, is_link, is_name, is_slash, opens,
};
use js_nodes::operators::{binds, is_assignment, is_prefix, is_step};
use js_nodes::{Closer, Context, Inside};

impl<'a> Cursor<'a> {
    /// Whether the next token is a property's.
    pub fn at_access(&self) -> bool
        ensures { result ≡ ahead.of classes.is_access (first self.now None) }
    {
        match self.peek() {
            Some(token) => is_access(&token.kind),
            None => false,
        }
    }

    /// Whether the next token is a property's or a call's.
    pub fn at_link(&self) -> bool
        ensures { result ≡ ahead.of classes.is_link (first self.now None) }
    {
        match self.peek() {
            Some(token) => is_link(&token.kind),
            None => false,
        }
    }

    /// Whether a primary expression begins here.
    pub fn at_primary(&self) -> bool
        ensures { result ≡ ahead.of classes.begins_primary (first self.now None) }
    {
        match self.peek() {
            Some(token) => begins_primary(&token.kind),
            None => false,
        }
    }

    /// Whether an operator before its operand is next.
    pub fn at_prefix(&self) -> bool
        ensures { result ≡ ahead.of operators.is_prefix (first self.now None) }
    {
        match self.peek() {
            Some(token) => is_prefix(&token.kind),
            None => false,
        }
    }

    /// Whether a name that isn't left out is next.
    pub fn at_name(&self) -> bool
        ensures { result ≡ ahead.of ahead.is_name (first self.now None) }
    {
        match self.peek() {
            Some(token) => is_name(&token.kind),
            None => false,
        }
    }

    /// Whether a name that is left out is next.
    pub fn at_left_out_name(&self) -> bool
        ensures { result ≡ ahead.of ahead.is_left_out_name (first self.now None) }
    {
        match self.peek() {
            Some(token) => is_left_out_name(&token.kind),
            None => false,
        }
    }

    /// Whether `/` or `/=` is next.
    pub fn at_slash(&self) -> bool
        ensures { result ≡ ahead.of ahead.is_slash (first self.now None) }
    {
        match self.peek() {
            Some(token) => is_slash(&token.kind),
            None => false,
        }
    }

    /// Whether an operand that is left out would begin here.
    pub fn at_left_out(&self) -> bool
        ensures { result ≡ (ahead.of ahead.is_left_out_name (first self.now None) || ahead.of ahead.is_slash (first self.now None)) }
    {
        self.at_left_out_name() || self.at_slash()
    }

    /// Whether the next token is `++` or `--`, with no line terminator before it.
    pub fn at_postfix(&self) -> bool
        ensures { result ≡ questions.is_postfix (first self.now None) }
    {
        match self.peek() {
            Some(token) => is_step(&token.kind) && !token.newline,
            None => false,
        }
    }

    /// Whether the next token assigns.
    pub fn at_assignment(&self) -> bool
        ensures { result ≡ ahead.of operators.is_assignment (first self.now None) }
    {
        match self.peek() {
            Some(token) => is_assignment(&token.kind),
            None => false,
        }
    }

    /// How tightly the next token binds as an operator between two operands.
    #[tactic(auto, unfolding(js_nodes::specs::Operands::binds))]
    pub fn binds(&self, context: Context) -> u8
        ensures value { result ≡ operands.binds context (first self.now None) }
        ensures bound { result ≤ 10 }
    {
        match self.peek() {
            Some(token) => binds(context.has_in, &token.kind),
            None => 0,
        }
    }

    /// Whether a semicolon is inserted here, where the next token fits no rule.
    pub fn inserts(&self) -> bool
        ensures { result ≡ operands.inserted (first self.now None) }
    {
        !self.at(Punct::Semicolon)
            && (self.is_on_new_line() || self.at(Punct::RightBrace) || self.peek().is_none())
    }

    /// Whether a statement ends here.
    pub fn ends(&self) -> bool
        ensures { result ≡ operands.ends (first self.now None) }
    {
        self.at(Punct::Semicolon) || self.inserts()
    }

    /// Whether an expression goes on so behind a finished operand of a prefix operator.
    #[tactic(auto, unfolding(js_nodes::specs::Operands::continues))]
    pub fn continues(&self, context: Context) -> bool
        ensures { result ≡ operands.continues context (first self.now None) }
    {
        0 < self.binds(context)
            || self.at(Punct::Question)
            || self.at_assignment()
            || (self.at(Punct::Comma) && !matches!(context.closer, Closer::Middle))
    }

    /// Whether an operand begins here that is not left out.
    pub fn begins_operand(&self) -> bool
        ensures { result ≡ questions.begins_operand (first self.now None) }
    {
        self.at_primary() || self.at_word(Word::New) || self.at_prefix()
    }

    /// Whether the next token stands before the `}` of a block.
    pub fn in_block(&self) -> bool
        ensures { result ≡ questions.in_block (first self.now None) }
    {
        !self.at(Punct::RightBrace) && self.peek().is_some()
    }

    /// Whether the next token stands before the end of a part of a `switch`.
    pub fn in_case(&self) -> bool
        ensures { result ≡ questions.in_case (first self.now None) }
    {
        self.in_block() && !self.at_word(Word::Case) && !self.at_word(Word::Default)
    }

    /// Whether a part of a `switch` begins here.
    pub fn at_case(&self) -> bool
        ensures { result ≡ questions.is_case (first self.now None) }
    {
        self.at_word(Word::Case) || self.at_word(Word::Default)
    }

    /// Whether an expression goes on so behind a name in the first part of a head.
    pub fn goes_on(&self) -> bool
        ensures { result ≡ questions.goes_on (first self.now None) }
    {
        self.continues(Context::first()) || self.at_postfix() || self.at_link()
    }

    /// Whether an expression statement begins here.
    pub fn begins_statement(&self) -> bool
        ensures { result ≡ questions.begins_statement (first self.now None) }
    {
        (self.begins_operand() || self.at_left_out())
            && !(self.at(Punct::LeftBrace) || self.at_word(Word::Function))
    }

    /// Whether a statement begins here so that its first token tells, and may stand here.
    #[tactic(auto, unfolding(js_nodes::specs::Classes::opens))]
    pub fn at_opening(&self, inside: Inside) -> bool
        ensures { result ≡ classes.opens inside (first self.now None) }
    {
        match self.peek() {
            Some(token) => opens(inside, token),
            None => false,
        }
    }
}
