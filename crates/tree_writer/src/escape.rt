//! Texts as they are written in a tree text.
ghost use Rattle.std.specs.Prelude.{◌≡◌, ◌++◌, IfOk, OnOk, cond};
ghost use Rattle.std.specs.List.{flat_map};
ghost use Rattle.page_units.specs.Coding.{utf8_of_units};
ghost use Rattle.tree_writer.specs.TreeText.{escape_text, escape_value};

use page_units::{NoMemory, Text, push_ascii, utf8_of};
use std::alloc::Global;

/// A text as it is written, in UTF-8: raw, or with `&`, `<` and `>` escaped.
pub fn text_bytes(alloc: Global, units: &[u16], raw: bool) -> Result<Vec<u8>, NoMemory>
    ensures { IfOk result (λ bytes.
        bytes.items ≡ utf8_of_units (cond raw units.now (flat_map escape_text units.now))) }
{
    let written = if raw {
        Vec::from_slice(alloc, units)?
    } else {
        text_units(alloc, units)?
    };
    utf8_of(alloc, &Text::of_units(written)?)
}

/// The units of a text as they are written, escaped.
fn text_units(alloc: Global, units: &[u16]) -> Result<Vec<u16>, NoMemory>
    ensures { IfOk result (λ written. written.items ≡ flat_map escape_text units.now) }
{
    let mut written = Vec::with_capacity(alloc, units.len())?;
    for unit in units {
        push_escaped(&mut written, *unit)?;
    }
    Ok(written)
}

/// Appends a unit as it is written in a text.
fn push_escaped(written: &mut Vec<u16>, unit: u16) -> Result<(), NoMemory>
    ensures { OnOk result (written.new.items ≡ written.old.items ++ escape_text unit) }
{
    match u8::try_from(unit) {
        Ok(b'&') => push_ascii(written, b"&amp;"),
        Ok(b'<') => push_ascii(written, b"&lt;"),
        Ok(b'>') => push_ascii(written, b"&gt;"),
        _ => Ok(written.push(unit)?),
    }
}

/// An attribute's value as it is written, in UTF-8: with `&`, `<`, `>` and `"` escaped.
pub fn value_bytes(alloc: Global, units: &[u16]) -> Result<Vec<u8>, NoMemory>
    ensures { IfOk result (λ bytes. bytes.items ≡ utf8_of_units (flat_map escape_value units.now)) }
{
    let written = Text::of_units(value_units(alloc, units)?)?;
    utf8_of(alloc, &written)
}

/// The units of a value as they are written.
fn value_units(alloc: Global, units: &[u16]) -> Result<Vec<u16>, NoMemory>
    ensures { IfOk result (λ written. written.items ≡ flat_map escape_value units.now) }
{
    let mut written = Vec::with_capacity(alloc, units.len())?;
    for unit in units {
        push_value(&mut written, *unit)?;
    }
    Ok(written)
}

/// Appends a unit as it is written in a value.
fn push_value(written: &mut Vec<u16>, unit: u16) -> Result<(), NoMemory>
    ensures { OnOk result (written.new.items ≡ written.old.items ++ escape_value unit) }
{
    match u8::try_from(unit) {
        Ok(b'"') => push_ascii(written, b"&quot;"),
        _ => push_escaped(written, unit),
    }
}
