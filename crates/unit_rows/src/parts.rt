//! Parts of texts, texts put together, and the bounds of texts and numbers.
use crate::fields::{spelled_units, text_of};
use page_units::{GREATEST_NUMBER, LONGEST_TEXT, digit_value};
use row_files::{field, number};
use std::alloc::{AllocError, Global};

/// The unit of a text at an index.
pub fn unit(alloc: Global, fields: &[String]) -> Result<String, AllocError> {
    let text = text_of(alloc, field(fields, 0))?;
    match text.unit(number(fields, 1) as usize) {
        Some(unit) => spelled_units(alloc, &[unit]),
        None => String::from_str(alloc, "none"),
    }
}

/// The units of a text from one index up to another.
pub fn slice(alloc: Global, fields: &[String]) -> Result<String, AllocError> {
    let text = text_of(alloc, field(fields, 0))?;
    let from = number(fields, 1) as usize;
    let to = number(fields, 2) as usize;
    if from <= to && to <= text.len() {
        let part = text.slice(alloc, from, to)?;
        spelled_units(alloc, part.units())
    } else {
        String::from_str(alloc, "no part")
    }
}

/// The units of two texts, put together.
pub fn concat(alloc: Global, fields: &[String]) -> Result<String, AllocError> {
    let one = text_of(alloc, field(fields, 0))?;
    let other = text_of(alloc, field(fields, 1))?;
    let both = one.concat(alloc, &other)?;
    spelled_units(alloc, both.units())
}

/// The value of a character as a digit.
pub fn digit(alloc: Global, fields: &[String]) -> Result<String, AllocError> {
    match field(fields, 0).chars().next() {
        Some(character) => digit_value(character as u32).to_string(alloc),
        None => String::from_str(alloc, "no character"),
    }
}

/// A bound of numbers or of texts.
pub fn bound(alloc: Global, fields: &[String]) -> Result<String, AllocError> {
    match field(fields, 0) {
        "the greatest number" => GREATEST_NUMBER.to_string(alloc),
        "the units of the longest text" => LONGEST_TEXT.to_string(alloc),
        _ => String::from_str(alloc, "no such bound"),
    }
}
