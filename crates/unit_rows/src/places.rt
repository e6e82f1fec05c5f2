//! Characters and their places.
use placed_chars::{Char, Characters};
use row_files::{field, number};
use std::alloc::{AllocError, Global};

/// What a reader of the text stands at after so many advances: the next character with its place, and what it sees ahead.
pub fn character(alloc: Global, fields: &[String]) -> Result<String, AllocError> {
    let text = field(fields, 0);
    if text.len() > 1000 {
        return String::from_str(alloc, "too long");
    }
    let mut characters = Characters::new(text);
    for _ in 0..number(fields, 1) {
        characters.advance();
    }
    spelled(alloc, characters.here(), characters.ahead())
}

fn spelled(alloc: Global, here: Char, ahead: Option<char>) -> Result<String, AllocError> {
    let mut told = String::new(alloc);
    push_place(&mut told, here)?;
    match ahead {
        Some(ahead) => told.push(ahead)?,
        None => told.push_str("none")?,
    }
    Ok(told)
}

fn push_place(told: &mut String, here: Char) -> Result<(), AllocError> {
    write!(told, "{:x} from {} to {}, ", here.code, here.at, here.past)
}
