//! Names of elements that have a rule of their own.
use crate::fields::text_of;
use dom_tree::{is_raw, is_void};
use row_files::field;
use std::alloc::{AllocError, Global};

/// Whether HTML's element of this name is void.
pub fn void_name(alloc: Global, fields: &[String]) -> Result<String, AllocError> {
    let name = text_of(alloc, field(fields, 0))?;
    String::from_str(alloc, if is_void(&name) { "void" } else { "not void" })
}

/// Whether the content of an element of this name is raw.
pub fn raw_name(alloc: Global, fields: &[String]) -> Result<String, AllocError> {
    let name = text_of(alloc, field(fields, 0))?;
    String::from_str(alloc, if is_raw(&name) { "raw" } else { "not raw" })
}
