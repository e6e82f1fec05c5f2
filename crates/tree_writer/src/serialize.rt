//! The text of a node's tree.
ghost use Rattle.std.specs.Prelude.{◌≡◌, ◌<◌, ◌≤◌, ◌++◌, ℕ, List, [], ◌∷◌, length};
ghost use Rattle.std.specs.Prelude.{IfOk, MatchOption, slice_get, Some, true, false, codes};
ghost use Rattle.std.specs.Prelude.{◌&&◌, ◌==◌};
ghost use Rattle.page_units.specs.declared.value.CellName.{CellName};
ghost use Rattle.cell_places.specs.Kinds.{is_node};
ghost use Rattle.cell_places.specs.Heap.{kind_at};
ghost use Rattle.cell_places.specs.View.{heap};
ghost use Rattle.cell_places.specs.Rooted.{Still};
ghost use Rattle.cell_places.specs.Sound.{IsSound};
ghost use Rattle.cell_places.specs.Valid.{IsValid};
ghost use Rattle.tree_shape.specs.Names as spec;
ghost use Rattle.tree_shape.specs.Trees.{Trees};
ghost use Rattle.tree_shape.specs.Holds.{Holds, served};
ghost use Rattle.tree_writer.specs.TreeText.{trees_text};
ghost use Rattle.tree_writer.specs.Appends.{Appended};
ghost use Rattle.tree_writer.specs.NodeText.{IsTreeText};
ghost use Rattle.tree_writer.specs.NodeText as text;

use crate::append::append;
use crate::attributes::append_start;
use crate::escape::text_bytes;
use cell_places::{Answer, CellKind, Cells, Slot};
use page_units::{CellName, NoMemory, Text, Value, utf8_of};
use std::alloc::Global;
use tree_shape::{answer_at, is_raw, is_void};

/// The tree text of a node, which is the document, an element or a text node, in UTF-8, and None
/// exactly where it has more than `most` bytes. Of the document it is the text of its children, and
/// the text of a text node in a `script` or `style` is raw (HTML, "Serializing HTML fragments"; the
/// form is this project's own). It asks places and changes nothing. Out of memory, over a layer,
/// some of the reads may have been recorded.
pub fn dom_text<C: Cells>(
    alloc: Global,
    cells: &mut C,
    node: CellName,
    most: u64,
) -> Result<Option<Vec<u8>>, NoMemory>
    requires sound { (codes : ℕ) × IsSound codes (heap (C.seen cells.old)) }
    requires node { is_node (kind_at (heap (C.seen cells.old)) node) ≡ true }
    ensures text { IfOk result (λ found. MatchOption found
        ((bytes : List ℕ) × IsTreeText (heap (C.seen cells.old)) node bytes × (most < length bytes))
        (λ bytes. IsTreeText (heap (C.seen cells.old)) node bytes.items
        × (length bytes.items ≤ most))) }
    // A node has one tree text.
    ensures one { (one other : List ℕ)
        → IsTreeText (heap (C.seen cells.old)) node one
        → IsTreeText (heap (C.seen cells.old)) node other
        → one ≡ other }
    ensures still { Still (C.seen cells.old) (C.seen cells.new) }
{
    let raw = is_raw_text(cells, node)?;
    let mut out = Vec::new(alloc);
    if append_served(alloc, cells, node, raw, most, &mut out)? {
        Ok(Some(out))
    } else {
        Ok(None)
    }
}

/// Whether this is a text node in a `script` or `style`: a text node's parent is asked, and of
/// other nodes nothing.
fn is_raw_text<C: Cells>(cells: &mut C, node: CellName) -> Result<bool, NoMemory>
    requires valid { IsValid (heap (C.seen cells.old)) }
    requires there { node.0 < length (heap (C.seen cells.old)).kinds }
    ensures raw { IfOk result (λ raw. raw ≡ text.is_raw_text (heap (C.seen cells.old)) node) }
    ensures still { Still (C.seen cells.old) (C.seen cells.new) }
{
    let CellKind::Chars = cells.kind_of(node) else {
        return Ok(false);
    };
    match answer_at(cells, node, Slot::Parent)? {
        Answer::One(Value::Cell(parent)) => Ok(is_raw_element(cells.kind_of(parent))),
        _ => Ok(false),
    }
}

/// Whether a cell of this kind is an element whose text is raw.
fn is_raw_element(kind: &CellKind) -> bool
    ensures { result ≡ text.is_raw_element kind.now }
{
    match kind {
        CellKind::Element(name) => is_raw(name),
        _ => false,
    }
}

/// Appends the text of what is served for the node, `raw` where its own text is; false as soon as
/// more than `most` bytes are sure.
fn append_served<C: Cells>(
    alloc: Global,
    cells: &mut C,
    node: CellName,
    raw: bool,
    most: u64,
    out: &mut Vec<u8>,
) -> Result<bool, NoMemory>
    requires there { node.0 < length (heap (C.seen cells.old)).kinds }
    requires form { (trees : Trees)
        × Holds (heap (C.seen cells.old)) (served (heap (C.seen cells.old)) node) trees }
    requires fits { length out.old.items ≤ most }
    ensures text { IfOk result (λ whole. (trees : Trees)
        → Holds (heap (C.seen cells.old)) (served (heap (C.seen cells.old)) node) trees
        → Appended whole most out.old.items out.new.items (trees_text raw trees)) }
    ensures still { Still (C.seen cells.old) (C.seen cells.new) }
{
    match cells.kind_of(node) {
        CellKind::Document => {
            let children = answer_at(cells, node, Slot::Children)?;
            append_nodes(alloc, cells, children.cells(), raw, most, out)
        }
        _ => append_nodes(alloc, cells, &[node], raw, most, out),
    }
}

/// Appends the text of siblings in the same way.
#[cycle(append)]
fn append_nodes<C: Cells>(
    alloc: Global,
    cells: &mut C,
    nodes: &[CellName],
    raw: bool,
    most: u64,
    out: &mut Vec<u8>,
) -> Result<bool, NoMemory>
    requires form { (trees : Trees) × Holds (heap (C.seen cells.old)) nodes.now trees }
    requires fits { length out.old.items ≤ most }
    ensures text { IfOk result (λ whole. (trees : Trees)
        → Holds (heap (C.seen cells.old)) nodes.now trees
        → Appended whole most out.old.items out.new.items (trees_text raw trees)) }
    ensures still { Still (C.seen cells.old) (C.seen cells.new) }
{
    for node in nodes {
        if !append_node(alloc, cells, *node, raw, most, out)? {
            return Ok(false);
        }
    }
    Ok(true)
}

/// Appends the text of one node in the same way.
#[cycle(append)]
fn append_node<C: Cells>(
    alloc: Global,
    cells: &mut C,
    node: CellName,
    raw: bool,
    most: u64,
    out: &mut Vec<u8>,
) -> Result<bool, NoMemory>
    requires form { (trees : Trees) × Holds (heap (C.seen cells.old)) (node ∷ []) trees }
    requires fits { length out.old.items ≤ most }
    ensures text { IfOk result (λ whole. (trees : Trees)
        → Holds (heap (C.seen cells.old)) (node ∷ []) trees
        → Appended whole most out.old.items out.new.items (trees_text raw trees)) }
    ensures still { Still (C.seen cells.old) (C.seen cells.new) }
{
    let name = match cells.kind_of(node) {
        CellKind::Element(name) => name.clone()?,
        _ => return append_chars(alloc, cells, node, raw, most, out),
    };
    append_element(alloc, cells, node, &name, most, out)
}

/// Appends the text of an element of this name in the same way.
#[cycle(append)]
fn append_element<C: Cells>(
    alloc: Global,
    cells: &mut C,
    node: CellName,
    name: &Text,
    most: u64,
    out: &mut Vec<u8>,
) -> Result<bool, NoMemory>
    requires kind { slice_get (heap (C.seen cells.old)).kinds node.0 ≡ Some (CellKind.Element name.now) }
    requires form { (trees : Trees) × Holds (heap (C.seen cells.old)) (node ∷ []) trees }
    requires fits { length out.old.items ≤ most }
    ensures text { IfOk result (λ whole. (trees : Trees)
        → Holds (heap (C.seen cells.old)) (node ∷ []) trees
        → Appended whole most out.old.items out.new.items (trees_text false trees)) }
    ensures still { Still (C.seen cells.old) (C.seen cells.new) }
{
    let written = utf8_of(alloc, name)?;
    if !append_start(alloc, cells, node, &written, most, out)? {
        return Ok(false);
    }
    let answer = answer_at(cells, node, Slot::Children)?;
    let children = answer.cells();
    if is_start_only(name, children) {
        return Ok(true);
    }
    if !append_nodes(alloc, cells, children, is_raw(name), most, out)? {
        return Ok(false);
    }
    append_end(&written, most, out)
}

/// Appends the text of a text node in the same way.
fn append_chars<C: Cells>(
    alloc: Global,
    cells: &mut C,
    node: CellName,
    raw: bool,
    most: u64,
    out: &mut Vec<u8>,
) -> Result<bool, NoMemory>
    requires kind { slice_get (heap (C.seen cells.old)).kinds node.0 ≡ Some CellKind.Chars }
    requires fits { length out.old.items ≤ most }
    ensures text { IfOk result (λ whole. (trees : Trees)
        → Holds (heap (C.seen cells.old)) (node ∷ []) trees
        → Appended whole most out.old.items out.new.items (trees_text raw trees)) }
    ensures still { Still (C.seen cells.old) (C.seen cells.new) }
{
    let answer = answer_at(cells, node, Slot::Chars)?;
    let units = answer.text_units();
    // A text has at least as many bytes as units.
    if units.len() as u64 > most - out.len() as u64 {
        return Ok(false);
    }
    let written = text_bytes(alloc, units, raw)?;
    append(&written, most, out)
}

/// Whether an element of this name and these children ends after its start tag.
fn is_start_only(name: &Text, children: &[CellName]) -> bool
    ensures { result ≡ (spec.is_void name.now && (length children.now == 0)) }
{
    is_void(name) && children.is_empty()
}

/// Appends the end tag of an element, whose name is given in UTF-8, in the same way.
fn append_end(name: &[u8], most: u64, out: &mut Vec<u8>) -> Result<bool, NoMemory>
    requires { length out.old.items ≤ most }
    ensures { IfOk result (λ whole. Appended whole most out.old.items out.new.items
        (codes "</" ++ (name.now ++ codes ">"))) }
{
    if !append(b"</", most, out)? {
        return Ok(false);
    }
    if !append(name, most, out)? {
        return Ok(false);
    }
    append(b">", most, out)
}
