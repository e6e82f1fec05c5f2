//! Reserved words.
ghost use Rattle.std.specs.Prelude.{◌≡◌, bytes_eq, find, IfOk};
ghost use Rattle.js_lexer.specs.Words as spellings;

use crate::token::Word;
use page_units::{NoMemory, Text, is_word};
use std::alloc::Global;

const WORDS: [Word; 45] = [
    Word::Break,
    Word::Case,
    Word::Catch,
    Word::Class,
    Word::Const,
    Word::Continue,
    Word::Debugger,
    Word::Default,
    Word::Delete,
    Word::Do,
    Word::Else,
    Word::Enum,
    Word::Export,
    Word::Extends,
    Word::False,
    Word::Finally,
    Word::For,
    Word::Function,
    Word::If,
    Word::Implements,
    Word::Import,
    Word::In,
    Word::Instanceof,
    Word::Interface,
    Word::Let,
    Word::New,
    Word::Null,
    Word::Package,
    Word::Private,
    Word::Protected,
    Word::Public,
    Word::Return,
    Word::Static,
    Word::Super,
    Word::Switch,
    Word::This,
    Word::Throw,
    Word::True,
    Word::Try,
    Word::Typeof,
    Word::Var,
    Word::Void,
    Word::While,
    Word::With,
    Word::Yield,
];

impl Word {
    /// How it is written.
    pub fn spelling(self) -> &'static str
        ensures { result.now ≡ spellings.spelling self }
    {
        match self {
            Word::Break => "break",
            Word::Case => "case",
            Word::Catch => "catch",
            Word::Class => "class",
            Word::Const => "const",
            Word::Continue => "continue",
            Word::Debugger => "debugger",
            Word::Default => "default",
            Word::Delete => "delete",
            Word::Do => "do",
            Word::Else => "else",
            Word::Enum => "enum",
            Word::Export => "export",
            Word::Extends => "extends",
            Word::False => "false",
            Word::Finally => "finally",
            Word::For => "for",
            Word::Function => "function",
            Word::If => "if",
            Word::Implements => "implements",
            Word::Import => "import",
            Word::In => "in",
            Word::Instanceof => "instanceof",
            Word::Interface => "interface",
            Word::Let => "let",
            Word::New => "new",
            Word::Null => "null",
            Word::Package => "package",
            Word::Private => "private",
            Word::Protected => "protected",
            Word::Public => "public",
            Word::Return => "return",
            Word::Static => "static",
            Word::Super => "super",
            Word::Switch => "switch",
            Word::This => "this",
            Word::Throw => "throw",
            Word::True => "true",
            Word::Try => "try",
            Word::Typeof => "typeof",
            Word::Var => "var",
            Word::Void => "void",
            Word::While => "while",
            Word::With => "with",
            Word::Yield => "yield",
        }
    }

    /// How it is written, as a text.
    pub fn text(self, alloc: Global) -> Result<Text, NoMemory>
        ensures { IfOk result (λ t. t ≡ spellings.spelling self) }
    {
        Text::of_ascii(alloc, self.spelling().as_bytes())
    }
}

/// The first of these words that the units spell.
fn spelled(words: &[Word], units: &[u16]) -> Option<Word>
    ensures { result ≡ find (λ w. bytes_eq units.now (spellings.spelling w)) words.now }
{
    words
        .iter()
        .copied()
        .find(|word| is_word(units, word.spelling().as_bytes()))
}

/// The reserved word that these units spell.
#[tactic(auto, unfolding(crate::specs::Words::word_of))]
pub(crate) fn word_of(units: &[u16]) -> Option<Word>
    ensures { result ≡ spellings.word_of units.now }
{
    spelled(&WORDS, units)
}
