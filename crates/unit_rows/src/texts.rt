//! Texts, shared lists and blanks.
use crate::fields::{bytes_of, spelled_bytes, spelled_units, text_of};
use crate::told::{push_count, push_word};
use page_units::{Shared, Text, is_line_terminator, is_white_space};
use row_files::{field, number};
use std::alloc::{AllocError, Global};

/// How two texts compare.
pub fn order(alloc: Global, fields: &[String]) -> Result<String, AllocError> {
    let one = text_of(alloc, field(fields, 0))?;
    let other = text_of(alloc, field(fields, 1))?;
    String::from_str(alloc, compared(&one, &other))
}

/// How a text compares with its clone.
pub fn compared_clone(alloc: Global, fields: &[String]) -> Result<String, AllocError> {
    let text = text_of(alloc, field(fields, 0))?;
    let clone = text.clone()?;
    String::from_str(alloc, compared(&text, &clone))
}

fn compared(one: &Text, other: &Text) -> &'static str {
    if one == other {
        "equal"
    } else if one < other {
        "less"
    } else {
        "greater"
    }
}

/// The length of a text and its units, or that it is empty.
pub fn length_and_units(alloc: Global, fields: &[String]) -> Result<String, AllocError> {
    let text = text_of(alloc, field(fields, 0))?;
    if text.is_empty() {
        return String::from_str(alloc, "empty");
    }
    let units = spelled_units(alloc, text.units())?;
    counted(alloc, text.len(), units.as_str())
}

/// The length of a shared list's clone, and its items.
pub fn shared_clone(alloc: Global, fields: &[String]) -> Result<String, AllocError> {
    let shared = Shared::of_vec(bytes_of(alloc, field(fields, 0))?)?;
    let clone = shared.clone()?;
    let items = spelled_bytes(alloc, clone.as_slice())?;
    counted(alloc, clone.len(), items.as_str())
}

fn counted(alloc: Global, count: usize, items: &str) -> Result<String, AllocError> {
    let mut told = String::new(alloc);
    push_count(&mut told, count as u64)?;
    push_word(&mut told, items)?;
    Ok(told)
}

/// The item of a shared list at an index.
pub fn shared_item(alloc: Global, fields: &[String]) -> Result<String, AllocError> {
    let shared = Shared::of_vec(bytes_of(alloc, field(fields, 0))?)?;
    match shared.get(number(fields, 1) as usize) {
        Some(item) => spelled_bytes(alloc, &[*item]),
        None => String::from_str(alloc, "none"),
    }
}

/// Which kind of blank a code point is.
pub fn blank(alloc: Global, fields: &[String]) -> Result<String, AllocError> {
    let code = u32::from_str_radix(field(fields, 0), 16).unwrap_or(0);
    String::from_str(alloc, kind(is_white_space(code), is_line_terminator(code)))
}

fn kind(is_white: bool, is_terminator: bool) -> &'static str {
    match (is_white, is_terminator) {
        (true, false) => "white space",
        (false, true) => "line terminator",
        (false, false) => "neither",
        (true, true) => "both",
    }
}
