//! Texts of bytes.
use std::alloc::{AllocError, Global};

/// The text that the bytes spell.
pub fn text_of(alloc: Global, bytes: &[u8]) -> Result<String, AllocError> {
    String::from_str(alloc, str::from_utf8(bytes).unwrap_or("no UTF-8"))
}
