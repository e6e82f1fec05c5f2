//! Puts the tree of a page into a heap.
ghost use Rattle.std.specs.Prelude.{◌≡◌, ◌<◌, ◌≤◌, ◌+◌, [], ◌∷◌, true, length, IfOk, OnOk, OnErr};
ghost use Rattle.cell_places.specs.Kinds.{is_child};
ghost use Rattle.cell_places.specs.Heap.{place, next};
ghost use Rattle.cell_places.specs.View.{heap, step, run};
ghost use Rattle.cell_places.specs.Acts.{placed};
ghost use Rattle.cell_places.specs.Valid.{CanAsk, CanPut};
ghost use Rattle.cell_places.specs.Rooted.{Rooted};
ghost use Rattle.cell_places.specs.Within.{is_below, NameIn};
ghost use Rattle.cell_places.specs.Lists.{Every};
ghost use Rattle.cell_places.specs.Start.{document_cell, node_prototype};
ghost use Rattle.tree_shape.specs.Trees.{HaveNamesOnce};
ghost use Rattle.page_reader.specs.NodeTrees.{pairs, trees_of};
ghost use Rattle.page_reader.specs.Planting.{
  planting,
  node_count,
  root_names,
  node_acts,
  name_acts,
  attribute_acts,
  children_acts,
  trees_acts,
};

use crate::node::{Attribute, Node};
use cell_places::{Answer, CellKind, Cells, DOCUMENT, NODE_PROTOTYPE, Place, Slot};
use page_units::{CellName, NoMemory, Shared, Text, Value};
use sqlite_items::Items;
use std::alloc::Global;

/// Puts a page's root with all that is in it under the document. Where memory was refused, the heap
/// is to be given up.
pub(crate) fn plant<C: Cells>(alloc: Global, cells: &mut C, root: &Node) -> Result<(), NoMemory>
    requires document { CanAsk (heap (C.seen cells.old)) (place document_cell Slot.Children) }
    requires prototype { node_prototype.0 < length (heap (C.seen cells.old)).kinds }
    requires room { length (heap (C.seen cells.old)).kinds + node_count (trees_of (root.now ∷ []))
        ≤ 4000000000 }
    requires once { HaveNamesOnce (trees_of (root.now ∷ [])) }
    ensures acts { OnOk result (C.seen cells.new ≡ run (C.seen cells.old)
        (planting (heap (C.seen cells.old)) (trees_of (root.now ∷ [])))) }
    ensures rooted { Rooted (C.seen cells.old) (C.seen cells.new) }
{
    let node = plant_node(alloc, cells, DOCUMENT, root)?;
    let mut names = Vec::with_capacity(alloc, 1)?;
    names.push(node)?;
    put_children(cells, DOCUMENT, names)
}

/// Plants siblings under their parent, and answers their names.
#[cycle(planting)]
fn plant_siblings<C: Cells>(
    alloc: Global,
    cells: &mut C,
    parent: CellName,
    nodes: &Items<Node>,
) -> Result<Vec<CellName>, NoMemory>
    requires parent { CanAsk (heap (C.seen cells.old)) (place parent Slot.Children) }
    requires prototype { node_prototype.0 < length (heap (C.seen cells.old)).kinds }
    requires room { length (heap (C.seen cells.old)).kinds + node_count (trees_of nodes.now)
        ≤ 4000000000 }
    requires once { HaveNamesOnce (trees_of nodes.now) }
    ensures acts { OnOk result (C.seen cells.new ≡ run (C.seen cells.old)
        (trees_acts parent (length (heap (C.seen cells.old)).kinds) (trees_of nodes.now))) }
    ensures names { IfOk result (λ names. names.items ≡ root_names
        (length (heap (C.seen cells.old)).kinds) (trees_of nodes.now)) }
    ensures rooted { Rooted (C.seen cells.old) (C.seen cells.new) }
{
    let mut names = Vec::new(alloc);
    'siblings: for node in nodes.as_slice() {
        names.push(plant_node(alloc, cells, parent, node)?)?;
    }
    Ok(names)
}

/// Plants a node with all that is in it under its parent, and answers its name.
#[cycle(planting)]
fn plant_node<C: Cells>(
    alloc: Global,
    cells: &mut C,
    parent: CellName,
    node: &Node,
) -> Result<CellName, NoMemory>
    requires parent { CanAsk (heap (C.seen cells.old)) (place parent Slot.Children) }
    requires prototype { node_prototype.0 < length (heap (C.seen cells.old)).kinds }
    requires room { length (heap (C.seen cells.old)).kinds + node_count (trees_of (node.now ∷ []))
        ≤ 4000000000 }
    requires once { HaveNamesOnce (trees_of (node.now ∷ [])) }
    ensures acts { OnOk result (C.seen cells.new ≡ run (C.seen cells.old)
        (trees_acts parent (length (heap (C.seen cells.old)).kinds) (trees_of (node.now ∷ [])))) }
    ensures name { IfOk result (λ name. name ≡ next (heap (C.seen cells.old))) }
    ensures rooted { Rooted (C.seen cells.old) (C.seen cells.new) }
{
    match node {
        Node::Chars(units) => {
            let name = make_node(cells, parent, CellKind::Chars)?;
            let chars = Place {
                cell: name,
                slot: Slot::Chars,
            };
            cells.put(&chars, Answer::One(Value::Str(units.clone()?)))?;
            Ok(name)
        }
        Node::Element(tag, attributes, children) => {
            let name = make_node(cells, parent, CellKind::Element(tag.clone()?))?;
            put_attributes(alloc, cells, name, attributes.as_slice())?;
            let names = plant_siblings(alloc, cells, name, children)?;
            put_children(cells, name, names)?;
            Ok(name)
        }
    }
}

/// Makes a node of this kind, with the nodes' prototype and its parent.
fn make_node<C: Cells>(
    cells: &mut C,
    parent: CellName,
    kind: CellKind,
) -> Result<CellName, NoMemory>
    requires parent { CanAsk (heap (C.seen cells.old)) (place parent Slot.Children) }
    requires prototype { node_prototype.0 < length (heap (C.seen cells.old)).kinds }
    requires room { length (heap (C.seen cells.old)).kinds < 4000000000 }
    requires child { is_child kind ≡ true }
    ensures acts { OnOk result (C.seen cells.new ≡ run (C.seen cells.old)
        (node_acts (length (heap (C.seen cells.old)).kinds) kind parent)) }
    ensures name { IfOk result (λ name. name ≡ next (heap (C.seen cells.old))) }
    ensures rooted { Rooted (C.seen cells.old) (C.seen cells.new) }
{
    let node = cells.make(kind)?;
    put_cell(cells, node, Slot::Proto, NODE_PROTOTYPE)?;
    put_cell(cells, node, Slot::Parent, parent)?;
    Ok(node)
}

/// Puts an element's attributes in order, and then their names where it has any.
fn put_attributes<C: Cells>(
    alloc: Global,
    cells: &mut C,
    node: CellName,
    attributes: &[Attribute],
) -> Result<(), NoMemory>
    requires element { CanAsk (heap (C.seen cells.old)) (place node Slot.AttrNames) }
    ensures acts { OnOk result (C.seen cells.new ≡ run (C.seen cells.old)
        (attribute_acts node (pairs attributes.now))) }
    ensures rooted { Rooted (C.seen cells.old) (C.seen cells.new) }
{
    let mut names = Vec::with_capacity(alloc, attributes.len())?;
    for attribute in attributes {
        put_attribute(cells, node, attribute)?;
        names.push(attribute.name.clone()?)?;
    }
    put_names(cells, node, names)
}

/// Puts an attribute's value.
fn put_attribute<C: Cells>(
    cells: &mut C,
    node: CellName,
    attribute: &Attribute,
) -> Result<(), NoMemory>
    requires element { CanAsk (heap (C.seen cells.old)) (place node Slot.AttrNames) }
    ensures ok { OnOk result (C.seen cells.new ≡ step (C.seen cells.old)
        (placed (place node (Slot.Attr attribute.now.name))
        (Answer.One (Value.Str attribute.now.value)))) }
    ensures err { OnErr result (C.seen cells.new ≡ C.seen cells.old) }
{
    let slot = Slot::Attr(attribute.name.clone()?);
    let value = attribute.value.clone()?;
    cells.put(&Place { cell: node, slot }, Answer::One(Value::Str(value)))
}

/// Puts the names of an element's attributes, where it has any.
fn put_names<C: Cells>(cells: &mut C, node: CellName, names: Vec<Text>) -> Result<(), NoMemory>
    requires element { CanAsk (heap (C.seen cells.old)) (place node Slot.AttrNames) }
    ensures acts { OnOk result (C.seen cells.new ≡ run (C.seen cells.old)
        (name_acts node names.items)) }
    ensures err { OnErr result (C.seen cells.new ≡ C.seen cells.old) }
{
    if names.is_empty() {
        return Ok(());
    }
    let place = Place {
        cell: node,
        slot: Slot::AttrNames,
    };
    cells.put(&place, Answer::Names(Shared::of_vec(names)?))
}

/// Puts a cell's name at a slot.
fn put_cell<C: Cells>(
    cells: &mut C,
    cell: CellName,
    slot: Slot,
    value: CellName,
) -> Result<(), NoMemory>
    requires { CanPut (heap (C.seen cells.old)) (place cell slot) (Answer.One (Value.Cell value)) }
    ensures ok { OnOk result (C.seen cells.new ≡ step (C.seen cells.old)
        (placed (place cell slot) (Answer.One (Value.Cell value)))) }
    ensures err { OnErr result (C.seen cells.new ≡ C.seen cells.old) }
{
    cells.put(&Place { cell, slot }, Answer::One(Value::Cell(value)))
}

/// Puts a node's children, where it has any.
fn put_children<C: Cells>(
    cells: &mut C,
    node: CellName,
    names: Vec<CellName>,
) -> Result<(), NoMemory>
    requires node { CanAsk (heap (C.seen cells.old)) (place node Slot.Children) }
    requires names { Every (NameIn (is_below (length (heap (C.seen cells.old)).kinds))) names.items }
    ensures acts { OnOk result (C.seen cells.new ≡ run (C.seen cells.old)
        (children_acts node names.items)) }
    ensures err { OnErr result (C.seen cells.new ≡ C.seen cells.old) }
{
    if names.is_empty() {
        return Ok(());
    }
    let children = Place {
        cell: node,
        slot: Slot::Children,
    };
    cells.put(&children, Answer::Cells(Shared::of_vec(names)?))
}
