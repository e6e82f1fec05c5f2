//! Tokens as the rows write them.
use js_lexer::{Kind, Token, Word};
use std::alloc::{AllocError, Global};

/// What a group's rows show of a token.
#[derive(Clone, Copy)]
pub enum Aspect {
    /// Its kind with its value.
    Kind,
    /// Its first byte, the byte behind it, and whether a line terminator stands before it.
    Place,
    /// Its kind and its place.
    Whole,
    /// The name of a word with its text in UTF-16, as `Word::text` gives it.
    Text,
    /// The name of a word or a punctuator with its spelling.
    Spelling,
}

impl Aspect {
    /// What the rows of the group of this name show.
    pub fn of_group(group: &str) -> Aspect {
        if group.starts_with("kinds") {
            Aspect::Kind
        } else if group.starts_with("places") {
            Aspect::Place
        } else if group.starts_with("texts of reserved words") {
            Aspect::Text
        } else if group.starts_with("spellings") {
            Aspect::Spelling
        } else {
            Aspect::Whole
        }
    }
}

/// Appends what is shown of the token.
pub fn push_shown(answer: &mut String, aspect: Aspect, token: &Token) -> Result<(), AllocError> {
    match aspect {
        Aspect::Kind => push_kind(answer, &token.kind),
        Aspect::Place => push_place(answer, token),
        Aspect::Whole => push_whole(answer, token),
        Aspect::Text => push_text(answer, &token.kind),
        Aspect::Spelling => push_spelling(answer, &token.kind),
    }
}

fn push_whole(answer: &mut String, token: &Token) -> Result<(), AllocError> {
    push_kind(answer, &token.kind)?;
    answer.push_str(" at ")?;
    push_place(answer, token)
}

fn push_place(answer: &mut String, token: &Token) -> Result<(), AllocError> {
    let before = if token.newline { "newline " } else { "" };
    write!(answer, "{before}{}..{}", token.at, token.end)
}

fn push_kind(answer: &mut String, kind: &Kind) -> Result<(), AllocError> {
    match kind {
        Kind::Name(text) => push_units(answer, "name", text.units()),
        Kind::Word(word) => write!(answer, "word {word:?}"),
        Kind::Punct(punct) => write!(answer, "punctuator {punct:?}"),
        Kind::Num(number) => write!(answer, "number {number}"),
        Kind::Str(text) => push_units(answer, "text", text.units()),
    }
}

/// Appends what the units are, and each of them in hex.
fn push_units(answer: &mut String, name: &str, units: &[u16]) -> Result<(), AllocError> {
    answer.push_str(name)?;
    for unit in units {
        push_unit(answer, *unit)?;
    }
    Ok(())
}

fn push_unit(answer: &mut String, unit: u16) -> Result<(), AllocError> {
    write!(answer, " {unit:x}")
}

fn push_text(answer: &mut String, kind: &Kind) -> Result<(), AllocError> {
    match kind {
        Kind::Word(word) => push_word_text(answer, *word),
        _ => answer.push_str("no word"),
    }
}

/// Appends the word's name and its text; a surrogate that stands alone would be U+FFFD.
fn push_word_text(answer: &mut String, word: Word) -> Result<(), AllocError> {
    let alloc = *answer.allocator();
    let text = String::from_utf16_lossy(alloc, word.text(alloc)?.units())?;
    write!(answer, "{word:?} is {text}")
}

fn push_spelling(answer: &mut String, kind: &Kind) -> Result<(), AllocError> {
    match kind {
        Kind::Word(word) => write!(answer, "{word:?} is {}", word.spelling()),
        Kind::Punct(punct) => write!(answer, "{punct:?} is {}", punct.spelling()),
        _ => answer.push_str("no word and no punctuator"),
    }
}
