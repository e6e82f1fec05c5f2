//! Reading of a script's input elements, one behind the other (ECMA-262 5.1, section 7).
ghost use Rattle.std.specs.Prelude.{◌≡◌, ◌++◌, ◌∷◌, ◌≤◌, List, [], length, drop, All, IsTrue, IfOk, OnOk};
ghost use Rattle.std.specs.Str.{chars};
ghost use Rattle.grammar.specs.Exactly.{Exactly};
ghost use Rattle.grammar.specs.Grammar.{first};
ghost use Rattle.grammar.specs.Reading.{read};
ghost use Rattle.placed_chars.specs.Chars.{stop};
ghost use Rattle.js_lexer.specs.declared.lexer.Element.TheVariants as elements;
ghost use Rattle.js_lexer.specs.Chars as classes;
ghost use Rattle.js_lexer.specs.Chars.{of, is};
ghost use Rattle.js_lexer.specs.Punctuators.{punct_of};
ghost use Rattle.js_lexer.specs.Source as source;
ghost use Rattle.js_lexer.specs.Texts as texts;
ghost use Rattle.js_lexer.specs.Source.{lexed};
ghost use Rattle.js_lexer.specs.Tokens.{AreTokens, IsNumeral, LexesAs, report};
ghost use Rattle.js_lexer.specs.Reads.{Reads, ReadsAs};
ghost use Rattle.js_lexer.specs.declared.fault.LexFault.{LexFault};
ghost use Rattle.js_lexer.specs.declared.token.Token.{Token};

use crate::classes::{is_digit, is_quote, is_terminator, is_white, starts_name};
use crate::fault::LexFault;
use crate::lexer::{Element, Lexeme, Lexer};
use crate::punctuators::punct_of;
use crate::token::{Kind, Punct, Token};
use page_units::NoMemory;
use std::alloc::Global;

/// Whether an input element may begin with it.
#[tactic(auto, unfolding(crate::specs::Source::is_start))]
fn is_start(c: char) -> bool
    ensures { result ≡ source.is_start c }
{
    is_white(c)
        || is_terminator(c)
        || starts_name(c)
        || is_digit(c)
        || is_quote(c)
        || c == '\\'
        || punct_of(c).is_some()
}

fn push_token(tokens: &mut Vec<Token>, token: Token) -> Result<(), NoMemory>
    ensures { OnOk result (tokens.new.items ≡ tokens.old.items ++ token ∷ []) }
{
    tokens.push(token)?;
    Ok(())
}

impl<'a> Lexer<'a> {
    /// Takes the comment or punctuator that begins with the `/` here.
    fn slash(&mut self) -> Result<Element, LexFault>
        ensures { Reads (read stop (source.slash (first self.old stop)) (drop 1 self.old)) result self.new }
    {
        let at = self.place();
        let past = self.past();
        self.advance();
        if self.is_at('/') {
            self.advance();
            self.line_comment();
            Ok(Element::White)
        } else if self.is_at('*') {
            self.advance();
            self.block_comment(at)
        } else {
            Ok(Element::Lexeme(self.longest(Punct::Slash, at, past)))
        }
    }

    /// Takes the `.` here.
    fn dot(&mut self) -> Result<Lexeme, LexFault>
        ensures { Reads (read stop (source.dot (first self.old stop)) (drop 1 self.old)) result self.new }
    {
        let at = self.place();
        let end = self.past();
        self.advance();
        if self.at_digit() {
            return Err(LexFault::LeftOut(at));
        }
        Ok(Lexeme {
            kind: Kind::Punct(Punct::Dot),
            at,
            end,
        })
    }

    /// Takes the text that begins with this quote.
    fn quoted(&mut self, quote: char) -> Result<Lexeme, LexFault>
        ensures { Reads (read stop (texts.text (first self.old stop).at quote) (drop 1 self.old)) result self.new }
    {
        let at = self.place();
        self.advance();
        self.text(at, quote)
    }

    /// Takes the punctuator that begins with this character.
    fn punctuator(&mut self, c: char) -> Result<Lexeme, LexFault>
        requires { IsTrue (of (is c) (first self.old stop)) }
        ensures { Reads (read stop (source.punctuator (first self.old stop) (punct_of (c ∷ []))) (drop 1 self.old)) result
            self.new }
    {
        let at = self.place();
        let past = self.past();
        self.advance();
        match punct_of(c) {
            Some(shortest) => Ok(self.longest(shortest, at, past)),
            None => Err(LexFault::BadChar(at)),
        }
    }

    /// Takes the token that begins with this character, which is no slash.
    #[tactic(auto, unfolding(crate::specs::Source::token))]
    fn token(&mut self, c: char) -> Result<Lexeme, LexFault>
        requires { IsTrue (of (is c) (first self.old stop)) }
        ensures { Reads (read stop (source.token (first self.old stop)) (drop 1 self.old)) result self.new }
    {
        if starts_name(c) {
            self.name()
        } else if is_digit(c) {
            self.number()
        } else if is_quote(c) {
            self.quoted(c)
        } else if c == '.' {
            self.dot()
        } else if c == '\\' {
            self.escaped_name()
        } else {
            self.punctuator(c)
        }
    }

    /// Takes the input element that begins with this character, which may begin one.
    #[tactic(auto, unfolding(crate::specs::Source::begun))]
    fn begun(&mut self, c: char) -> Result<Element, LexFault>
        requires { IsTrue (of (is c) (first self.old stop)) }
        ensures { Reads (read stop (source.begun (first self.old stop)) (drop 1 self.old)) result self.new }
    {
        if is_white(c) {
            self.advance();
            Ok(Element::White)
        } else if is_terminator(c) {
            self.advance();
            Ok(Element::Newline)
        } else if c == '/' {
            self.slash()
        } else {
            Ok(Element::Lexeme(self.token(c)?))
        }
    }

    /// Takes the input element that begins with this character.
    fn element(&mut self, c: char) -> Result<Element, LexFault>
        requires { IsTrue (of (is c) (first self.old stop)) }
        ensures { Reads (read stop source.element self.old) result self.new }
    {
        if is_start(c) {
            self.begun(c)
        } else {
            Err(LexFault::BadChar(self.place()))
        }
    }

    /// Takes the input element that begins with this character, and answers whether a line terminator
    /// stands behind the last token.
    fn piece(&mut self, c: char, tokens: &mut Vec<Token>, newline: bool) -> Result<bool, LexFault>
        requires { IsTrue (of (is c) (first self.old stop)) }
        ensures { ReadsAs (λ after. lexed tokens.new.items after)
            (read stop (source.piece (lexed tokens.old.items newline)) self.old) result self.new }
    {
        match self.element(c)? {
            Element::White => Ok(newline),
            Element::Newline => Ok(true),
            Element::Lexeme(Lexeme { kind, at, end }) => {
                let token = Token {
                    kind,
                    at,
                    end,
                    newline,
                };
                push_token(tokens, token)?;
                Ok(false)
            }
        }
    }

    /// Takes the end of the script.
    fn end(&mut self) -> Result<(), LexFault>
        requires { drop 1 self.old ≡ [] }
        ensures value { Reads (read stop source.last self.old) result self.new }
        ensures over { OnOk result (self.new ≡ []) }
    {
        if !self.at_end() {
            return Err(LexFault::BadChar(self.place()));
        }
        self.advance();
        Ok(())
    }

    /// Takes the whole script.
    #[tactic(auto, unfolding(crate::specs::Source::source))]
    fn source(&mut self) -> Result<Vec<Token>, LexFault>
        ensures value { ReadsAs (λ tokens. tokens.items) (read stop source.source self.old) result self.new }
        ensures over { OnOk result (self.new ≡ []) }
    {
        let mut tokens = Vec::new(self.alloc());
        let mut newline = false;
        'elements: while let Some(c) = self.ahead() {
            newline = self.piece(c, &mut tokens, newline)?;
        }
        self.end()?;
        Ok(tokens)
    }
}

/// The tokens of a script, in order, exactly where it has tokens (ECMA-262 5.1, section 7, in strict code, less what pages
/// may not use). The source has at most 2^20 bytes.
///
/// # Errors
///
/// The fault of the first characters that are of no token, and nothing of the tokens before them; or
/// `NoMemory`, where the allocator refused.
pub fn lex(alloc: Global, source: &str) -> Result<Vec<Token>, LexFault>
    requires { length source.now ≤ 1048576 }
    ensures exactly { Exactly (AreTokens (chars source.now)) (LexesAs (chars source.now))
        (report result) }
    // Each number among them is a whole number from 0 to 2^53 - 1.
    ensures numbers { IfOk result (λ tokens. All (λ token. IsNumeral token.kind) tokens.items) }
{
    Lexer::new(alloc, source).source()
}
