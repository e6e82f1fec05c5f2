//! Punctuators.
ghost use Rattle.std.specs.Prelude.{◌≡◌, ◌++◌, ◌∷◌, [], true, false, bytes_eq, find, MatchOption};
ghost use Rattle.grammar.specs.Grammar.{first};
ghost use Rattle.grammar.specs.Reading.{read, Got};
ghost use Rattle.placed_chars.specs.Chars.{stop};
ghost use Rattle.js_lexer.specs.Punctuators as marks;

use crate::lexer::{Lexeme, Lexer};
use crate::token::{Kind, Punct};

const PUNCTUATORS: [Punct; 48] = [
    Punct::LeftBrace,
    Punct::RightBrace,
    Punct::LeftParen,
    Punct::RightParen,
    Punct::LeftBracket,
    Punct::RightBracket,
    Punct::Dot,
    Punct::Semicolon,
    Punct::Comma,
    Punct::Less,
    Punct::Greater,
    Punct::LessEqual,
    Punct::GreaterEqual,
    Punct::Equal,
    Punct::NotEqual,
    Punct::StrictEqual,
    Punct::StrictNotEqual,
    Punct::Plus,
    Punct::Minus,
    Punct::Star,
    Punct::Slash,
    Punct::Percent,
    Punct::Increment,
    Punct::Decrement,
    Punct::ShiftLeft,
    Punct::ShiftRight,
    Punct::ShiftRightZero,
    Punct::BitAnd,
    Punct::BitOr,
    Punct::BitXor,
    Punct::Not,
    Punct::BitNot,
    Punct::And,
    Punct::Or,
    Punct::Question,
    Punct::Colon,
    Punct::Assign,
    Punct::PlusAssign,
    Punct::MinusAssign,
    Punct::StarAssign,
    Punct::PercentAssign,
    Punct::SlashAssign,
    Punct::ShiftLeftAssign,
    Punct::ShiftRightAssign,
    Punct::ShiftRightZeroAssign,
    Punct::BitAndAssign,
    Punct::BitOrAssign,
    Punct::BitXorAssign,
];

impl Punct {
    /// How it is written.
    pub fn spelling(self) -> &'static str
        ensures { result.now ≡ marks.spelling self }
    {
        match self {
            Punct::LeftBrace => "{",
            Punct::RightBrace => "}",
            Punct::LeftParen => "(",
            Punct::RightParen => ")",
            Punct::LeftBracket => "[",
            Punct::RightBracket => "]",
            Punct::Dot => ".",
            Punct::Semicolon => ";",
            Punct::Comma => ",",
            Punct::Less => "<",
            Punct::Greater => ">",
            Punct::LessEqual => "<=",
            Punct::GreaterEqual => ">=",
            Punct::Equal => "==",
            Punct::NotEqual => "!=",
            Punct::StrictEqual => "===",
            Punct::StrictNotEqual => "!==",
            Punct::Plus => "+",
            Punct::Minus => "-",
            Punct::Star => "*",
            Punct::Slash => "/",
            Punct::Percent => "%",
            Punct::Increment => "++",
            Punct::Decrement => "--",
            Punct::ShiftLeft => "<<",
            Punct::ShiftRight => ">>",
            Punct::ShiftRightZero => ">>>",
            Punct::BitAnd => "&",
            Punct::BitOr => "|",
            Punct::BitXor => "^",
            Punct::Not => "!",
            Punct::BitNot => "~",
            Punct::And => "&&",
            Punct::Or => "||",
            Punct::Question => "?",
            Punct::Colon => ":",
            Punct::Assign => "=",
            Punct::PlusAssign => "+=",
            Punct::MinusAssign => "-=",
            Punct::StarAssign => "*=",
            Punct::PercentAssign => "%=",
            Punct::SlashAssign => "/=",
            Punct::ShiftLeftAssign => "<<=",
            Punct::ShiftRightAssign => ">>=",
            Punct::ShiftRightZeroAssign => ">>>=",
            Punct::BitAndAssign => "&=",
            Punct::BitOrAssign => "|=",
            Punct::BitXorAssign => "^=",
        }
    }
}

/// Whether the text is this front with one character more.
fn is_one_more(text: &[u8], front: &[u8], c: char) -> bool
    ensures { result ≡ bytes_eq (front.now ++ c ∷ []) text.now }
{
    match (text, front) {
        ([last], []) => c == char::from(*last),
        ([b, text @ ..], [d, front @ ..]) => d == b && is_one_more(text, front, c),
        _ => false,
    }
}

/// The first of these punctuators that is spelled as this front with one character more.
fn one_more(puncts: &[Punct], front: &[u8], c: char) -> Option<Punct>
    ensures { result ≡ find (λ p. bytes_eq (front.now ++ c ∷ []) (marks.spelling p)) puncts.now }
{
    puncts
        .iter()
        .copied()
        .find(|punct| is_one_more(punct.spelling().as_bytes(), front, c))
}

/// The punctuator of one character.
#[tactic(auto, unfolding(crate::specs::Punctuators::punct_of))]
pub(crate) fn punct_of(c: char) -> Option<Punct>
    ensures { result ≡ marks.punct_of (c ∷ []) }
{
    one_more(&PUNCTUATORS, &[], c)
}

/// What this character behind the punctuator makes of it.
#[tactic(auto, unfolding(crate::specs::Punctuators::punct_of))]
fn longer(punct: Punct, c: char) -> Option<Punct>
    ensures { result ≡ marks.longer punct c }
{
    one_more(&PUNCTUATORS, punct.spelling().as_bytes(), c)
}

impl<'a> Lexer<'a> {
    fn longer(&self, punct: Punct) -> Option<Punct>
        ensures { MatchOption result (marks.mark_goes (marks.mark punct 0) (first self.now stop) ≡ false)
            (λ next. (marks.mark_goes (marks.mark punct 0) (first self.now stop) ≡ true)
            × (marks.longer punct (first self.now stop).code ≡ Some next)) }
    {
        longer(punct, self.ahead()?)
    }

    /// Takes the rest of the longest punctuator that begins with this one, which stands at `at`.
    #[tactic(auto, unfolding(crate::specs::Punctuators::longest))]
    pub(crate) fn longest(&mut self, shortest: Punct, at: u32, past: u32) -> Lexeme
        ensures { read stop (marks.longest shortest at past) self.old ≡ Got result self.new }
    {
        let mut punct = shortest;
        let mut end = past;
        'chars: while let Some(next) = self.longer(punct) {
            punct = next;
            end = self.past();
            self.advance();
        }
        Lexeme {
            kind: Kind::Punct(punct),
            at,
            end,
        }
    }
}
