//! Fields of rows, as texts and as numbers.
use crate::told::push_hex;
use page_units::{NoMemory, Text};
use std::alloc::{AllocError, Global};

/// The text whose units are written in base 16.
pub fn text_of(alloc: Global, field: &str) -> Result<Text, NoMemory> {
    let mut units = Vec::new(alloc);
    for word in field.split_whitespace() {
        units.push(u16::from_str_radix(word, 16).unwrap_or(0))?;
    }
    Text::of_units(units)
}

/// The bytes that are written in base 16.
pub fn bytes_of(alloc: Global, field: &str) -> Result<Vec<u8>, AllocError> {
    let mut bytes = Vec::new(alloc);
    for word in field.split_whitespace() {
        bytes.push(u8::from_str_radix(word, 16).unwrap_or(0))?;
    }
    Ok(bytes)
}

/// The units as they are written.
pub fn spelled_units(alloc: Global, units: &[u16]) -> Result<String, AllocError> {
    let mut out = String::new(alloc);
    for unit in units {
        push_hex(&mut out, u32::from(*unit))?;
    }
    Ok(out)
}

/// The bytes as they are written.
pub fn spelled_bytes(alloc: Global, bytes: &[u8]) -> Result<String, AllocError> {
    let mut out = String::new(alloc);
    for byte in bytes {
        push_hex(&mut out, u32::from(*byte))?;
    }
    Ok(out)
}
