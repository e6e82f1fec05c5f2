//! Start tags with their attributes.
ghost use Rattle.std.specs.Prelude.{◌≡◌, ◌≤◌, ◌++◌, length, IfOk, codes, map};
ghost use Rattle.std.specs.List.{flat_map};
ghost use Rattle.cell_places.specs.Heap.{place};
ghost use Rattle.cell_places.specs.View.{heap};
ghost use Rattle.cell_places.specs.Rooted.{Still};
ghost use Rattle.cell_places.specs.Valid.{CanAsk};
ghost use Rattle.tree_writer.specs.TreeText.{attribute_text};
ghost use Rattle.tree_writer.specs.Appends.{Appended};
ghost use Rattle.tree_shape.specs.Holds.{attribute_at, attributes_at};

use crate::append::append;
use crate::escape::value_bytes;
use cell_places::{Cells, Slot};
use page_units::{CellName, NoMemory, Text, utf8_of};
use std::alloc::Global;
use tree_shape::answer_at;

/// Appends the start tag of an element, whose name is given in UTF-8; false as soon as more than
/// `most` bytes are sure.
pub fn append_start<C: Cells>(
    alloc: Global,
    cells: &mut C,
    node: CellName,
    name: &[u8],
    most: u64,
    out: &mut Vec<u8>,
) -> Result<bool, NoMemory>
    requires element { CanAsk (heap (C.seen cells.old)) (place node Slot.AttrNames) }
    requires fits { length out.old.items ≤ most }
    ensures text { IfOk result (λ whole. Appended whole most out.old.items out.new.items
        (codes "<" ++ (name.now
        ++ (flat_map attribute_text (attributes_at (heap (C.seen cells.old)) node)
        ++ codes ">")))) }
    ensures still { Still (C.seen cells.old) (C.seen cells.new) }
{
    if !append(b"<", most, out)? {
        return Ok(false);
    }
    if !append(name, most, out)? {
        return Ok(false);
    }
    if !append_own(alloc, cells, node, most, out)? {
        return Ok(false);
    }
    append(b">", most, out)
}

/// Appends the attributes of an element in the same way.
fn append_own<C: Cells>(
    alloc: Global,
    cells: &mut C,
    node: CellName,
    most: u64,
    out: &mut Vec<u8>,
) -> Result<bool, NoMemory>
    requires element { CanAsk (heap (C.seen cells.old)) (place node Slot.AttrNames) }
    requires fits { length out.old.items ≤ most }
    ensures text { IfOk result (λ whole. Appended whole most out.old.items out.new.items
        (flat_map attribute_text (attributes_at (heap (C.seen cells.old)) node))) }
    ensures still { Still (C.seen cells.old) (C.seen cells.new) }
{
    let answer = answer_at(cells, node, Slot::AttrNames)?;
    append_attributes(alloc, cells, node, answer.names(), most, out)
}

/// Appends the attributes of these names in the same way.
fn append_attributes<C: Cells>(
    alloc: Global,
    cells: &mut C,
    node: CellName,
    names: &[Text],
    most: u64,
    out: &mut Vec<u8>,
) -> Result<bool, NoMemory>
    requires element { CanAsk (heap (C.seen cells.old)) (place node Slot.AttrNames) }
    requires fits { length out.old.items ≤ most }
    ensures text { IfOk result (λ whole. Appended whole most out.old.items out.new.items
        (flat_map attribute_text (map (attribute_at (heap (C.seen cells.old)) node) names.now))) }
    ensures still { Still (C.seen cells.old) (C.seen cells.new) }
{
    for name in names {
        if !append_attribute(alloc, cells, node, name, most, out)? {
            return Ok(false);
        }
    }
    Ok(true)
}

/// Appends one attribute in the same way.
fn append_attribute<C: Cells>(
    alloc: Global,
    cells: &mut C,
    node: CellName,
    name: &Text,
    most: u64,
    out: &mut Vec<u8>,
) -> Result<bool, NoMemory>
    requires element { CanAsk (heap (C.seen cells.old)) (place node Slot.AttrNames) }
    requires fits { length out.old.items ≤ most }
    ensures text { IfOk result (λ whole. Appended whole most out.old.items out.new.items
        (attribute_text (attribute_at (heap (C.seen cells.old)) node name.now))) }
    ensures still { Still (C.seen cells.old) (C.seen cells.new) }
{
    let answer = answer_at(cells, node, Slot::Attr(name.clone()?))?;
    let value = answer.text_units();
    // Either has at least as many bytes as units.
    let room = most - out.len() as u64;
    if name.len() as u64 > room || value.len() as u64 > room {
        return Ok(false);
    }
    let written = attribute_bytes(alloc, name, value)?;
    append(&written, most, out)
}

/// An attribute as it is written, in UTF-8.
fn attribute_bytes(alloc: Global, name: &Text, value: &[u16]) -> Result<Vec<u8>, NoMemory>
    ensures { IfOk result (λ bytes. bytes.items ≡ attribute_text (name.now, value.now)) }
{
    let mut bytes = Vec::from_slice(alloc, b" ")?;
    let name = utf8_of(alloc, name)?;
    bytes.extend_from_slice(&name)?;
    bytes.extend_from_slice(b"=\"")?;
    let value = value_bytes(alloc, value)?;
    bytes.extend_from_slice(&value)?;
    bytes.push(b'"')?;
    Ok(bytes)
}
