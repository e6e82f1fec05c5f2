//! Classes of tokens, and the texts that they have as names and keys.
ghost use Rattle.std.specs.Prelude.{◌≡◌, Some, None, cond, IfOk, bytes_eq};
ghost use Rattle.js_nodes.specs.Next as ahead;
ghost use Rattle.js_nodes.specs.Classes as classes;

use crate::context::Inside;
use js_lexer::{Kind, Punct, Token, Word};
use page_units::{NoMemory, Text};
use std::alloc::Global;

/// Whether a name is left out of the language.
pub fn is_left_out(name: &Text) -> bool
    ensures { result ≡ ahead.is_left_out name.now }
{
    name.is_word(b"eval") || name.is_word(b"arguments")
}

/// Whether it is a name that is left out of the language.
pub fn is_left_out_name(kind: &Kind) -> bool
    ensures { result ≡ ahead.is_left_out_name kind.now }
{
    match kind {
        Kind::Name(name) => is_left_out(name),
        _ => false,
    }
}

/// Whether it is another name.
pub fn is_name(kind: &Kind) -> bool
    ensures { result ≡ ahead.is_name kind.now }
{
    match kind {
        Kind::Name(name) => !is_left_out(name),
        _ => false,
    }
}

/// Whether it is `/` or `/=`.
pub fn is_slash(kind: &Kind) -> bool
    ensures { result ≡ ahead.is_slash kind.now }
{
    match kind {
        Kind::Punct(Punct::Slash | Punct::SlashAssign) => true,
        _ => false,
    }
}

/// Whether it may be a key of an object's entry.
pub fn is_key(kind: &Kind) -> bool
    ensures { result ≡ ahead.is_key kind.now }
{
    match kind {
        Kind::Punct(_) => false,
        _ => true,
    }
}

/// Whether it is `get` or `set`.
pub fn is_accessor(kind: &Kind) -> bool
    ensures { result ≡ ahead.is_accessor kind.now }
{
    match kind {
        Kind::Name(name) => name.is_word(b"get") || name.is_word(b"set"),
        _ => false,
    }
}

/// The text that it has as a key; None where it is none.
pub fn key_text(alloc: Global, kind: &Kind) -> Result<Option<Text>, NoMemory>
    ensures { IfOk result (λ key. key ≡ cond (ahead.is_key kind.now) (Some (ahead.kind_text kind.now)) None) }
{
    match kind {
        Kind::Name(name) => Ok(Some(name.clone()?)),
        Kind::Word(word) => Ok(Some(word.text(alloc)?)),
        Kind::Str(text) => Ok(Some(text.clone()?)),
        Kind::Num(number) => Ok(Some(Text::of_number(alloc, *number)?)),
        Kind::Punct(_) => Ok(None),
    }
}

/// The text of a name or a word behind a `.`; None where it is neither.
pub fn member_text(alloc: Global, kind: &Kind) -> Result<Option<Text>, NoMemory>
    ensures { IfOk result (λ name. name ≡ cond (ahead.is_word_or_name kind.now) (Some (ahead.kind_text kind.now)) None) }
{
    match kind {
        Kind::Name(name) => Ok(Some(name.clone()?)),
        Kind::Word(word) => Ok(Some(word.text(alloc)?)),
        _ => Ok(None),
    }
}

/// Whether a primary expression begins so.
pub fn begins_primary(kind: &Kind) -> bool
    ensures { result ≡ classes.begins_primary kind.now }
{
    match kind {
        Kind::Name(_) => is_name(kind),
        Kind::Num(_) | Kind::Str(_) => true,
        Kind::Word(Word::This | Word::True | Word::False | Word::Null | Word::Function) => true,
        Kind::Punct(Punct::LeftParen | Punct::LeftBracket | Punct::LeftBrace) => true,
        _ => false,
    }
}

/// Whether a property goes on so.
pub fn is_access(kind: &Kind) -> bool
    ensures { result ≡ classes.is_access kind.now }
{
    match kind {
        Kind::Punct(Punct::Dot | Punct::LeftBracket) => true,
        _ => false,
    }
}

/// Whether a property or a call goes on so.
pub fn is_link(kind: &Kind) -> bool
    ensures { result ≡ classes.is_link kind.now }
{
    match kind {
        Kind::Punct(Punct::Dot | Punct::LeftBracket | Punct::LeftParen) => true,
        _ => false,
    }
}

/// Whether a statement begins so that its first token tells, and may stand here.
#[tactic(auto, unfolding(crate::specs::Classes::opens))]
pub fn opens(inside: Inside, token: &Token) -> bool
    ensures { result ≡ classes.opens inside (Some token.now) }
{
    match token.kind {
        Kind::Punct(Punct::LeftBrace | Punct::Semicolon) => true,
        Kind::Word(
            Word::Var
            | Word::If
            | Word::Do
            | Word::While
            | Word::For
            | Word::Throw
            | Word::Switch
            | Word::Try,
        ) => true,
        Kind::Word(Word::Continue) => inside.turning,
        Kind::Word(Word::Break) => inside.leaving,
        Kind::Word(Word::Return) => inside.function,
        _ => false,
    }
}

/// Whether a statement that begins so requires a node one level deeper.
pub fn requires_part(kind: &Kind) -> bool
    ensures { result ≡ classes.requires_part kind.now }
{
    match kind {
        Kind::Word(Word::If | Word::Do | Word::While | Word::For | Word::Throw | Word::Switch) =>
            true,
        _ => false,
    }
}
