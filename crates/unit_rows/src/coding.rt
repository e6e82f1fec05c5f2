//! Texts and their bytes.
use crate::fields::{bytes_of, spelled_bytes, spelled_units, text_of};
use page_units::{text_of_utf8, utf8_of};
use row_files::field;
use std::alloc::{AllocError, Global};

/// The units of the text that the bytes spell; none for bytes that are no UTF-8.
pub fn text_of_bytes(alloc: Global, fields: &[String]) -> Result<String, AllocError> {
    let bytes = bytes_of(alloc, field(fields, 0))?;
    match text_of_utf8(alloc, &bytes)? {
        Some(text) => spelled_units(alloc, text.units()),
        None => String::from_str(alloc, "none"),
    }
}

/// The bytes of a text.
pub fn bytes_of_text(alloc: Global, fields: &[String]) -> Result<String, AllocError> {
    let text = text_of(alloc, field(fields, 0))?;
    let bytes = utf8_of(alloc, &text)?;
    spelled_bytes(alloc, &bytes)
}
