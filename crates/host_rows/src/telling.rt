//! What is reported of a run: what it wrote, and how it ended.
use crom_commands::Status;
use std::alloc::{AllocError, Global};

/// The bytes as a text, `|`, and the status's number and line.
pub fn told(alloc: Global, bytes: &[u8], status: Status) -> Result<String, AllocError> {
    let mut text = String::from_utf8_lossy(alloc, bytes)?.to_string(alloc)?;
    write!(text, "|{} {status}", status.number())?;
    Ok(text)
}
