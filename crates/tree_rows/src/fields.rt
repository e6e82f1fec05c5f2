//! Texts of fields.
use page_units::{NoMemory, Text};
use std::alloc::Global;

/// The text of these ASCII letters.
pub fn text_of(alloc: Global, letters: &str) -> Result<Text, NoMemory> {
    let mut units = Vec::new(alloc);
    for byte in letters.as_bytes() {
        units.push(u16::from(*byte))?;
    }
    Text::of_units(units)
}
