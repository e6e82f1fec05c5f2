//! How texts are spelled.
use crate::fields::{spelled_units, text_of};
use crate::told::push_count;
use page_units::{Text, number_len, push_ascii, push_char, push_number};
use row_files::field;
use std::alloc::{AllocError, Global};

/// Whether a text is an ASCII word.
pub fn word(alloc: Global, fields: &[String]) -> Result<String, AllocError> {
    let text = text_of(alloc, field(fields, 0))?;
    if text.is_word(field(fields, 1).as_bytes()) {
        String::from_str(alloc, "yes")
    } else {
        String::from_str(alloc, "no")
    }
}

/// The units of a text of ASCII characters.
pub fn ascii(alloc: Global, fields: &[String]) -> Result<String, AllocError> {
    let text = Text::of_ascii(alloc, field(fields, 0).as_bytes())?;
    spelled_units(alloc, text.units())
}

/// The units of the text of a `str`.
pub fn characters(alloc: Global, fields: &[String]) -> Result<String, AllocError> {
    let text = Text::of_str(alloc, field(fields, 0))?;
    spelled_units(alloc, text.units())
}

/// The units of ASCII characters and, behind them, of any.
pub fn appended(alloc: Global, fields: &[String]) -> Result<String, AllocError> {
    let mut units = Vec::new(alloc);
    push_ascii(&mut units, field(fields, 0).as_bytes())?;
    for c in field(fields, 1).chars() {
        push_char(&mut units, c)?;
    }
    spelled_units(alloc, units.as_slice())
}

/// The units of a number's digits, and how many they are.
pub fn digits(alloc: Global, fields: &[String]) -> Result<String, AllocError> {
    let number = field(fields, 0).parse::<i64>().unwrap_or(0);
    let text = Text::of_number(alloc, number)?;
    let mut told = spelled_units(alloc, text.units())?;
    push_count(&mut told, number_len(number) as u64)?;
    Ok(told)
}

/// The units of numbers, one behind another.
pub fn numbers(alloc: Global, fields: &[String]) -> Result<String, AllocError> {
    let mut units = Vec::new(alloc);
    for number in fields {
        push_number(&mut units, number.parse::<i64>().unwrap_or(0))?;
    }
    spelled_units(alloc, units.as_slice())
}
