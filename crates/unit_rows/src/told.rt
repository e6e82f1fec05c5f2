//! Answers that are told word by word, with a space between.
use std::alloc::AllocError;

/// Tells a word.
pub fn push_word(told: &mut String, word: &str) -> Result<(), AllocError> {
    push_gap(told)?;
    told.push_str(word)
}

/// Tells a count.
pub fn push_count(told: &mut String, count: u64) -> Result<(), AllocError> {
    push_gap(told)?;
    write!(told, "{count}")
}

/// Tells a number in base 16.
pub fn push_hex(told: &mut String, number: u32) -> Result<(), AllocError> {
    push_gap(told)?;
    write!(told, "{number:x}")
}

/// Tells bytes as a text.
pub fn push_bytes(told: &mut String, bytes: &[u8]) -> Result<(), AllocError> {
    if bytes.is_empty() {
        return push_word(told, "nothing");
    }
    push_word(told, str::from_utf8(bytes).unwrap_or("no UTF-8"))
}

fn push_gap(told: &mut String) -> Result<(), AllocError> {
    if told.is_empty() {
        Ok(())
    } else {
        told.push_str(" ")
    }
}
