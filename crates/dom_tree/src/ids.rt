//! Elements by their id.
ghost use Rattle.std.specs.Prelude.{◌≡◌, ℕ, List, [], ◌∷◌, Option, IfOk, IfSome, codes, true};
ghost use Rattle.page_units.specs.declared.value.CellName.{CellName};
ghost use Rattle.cell_places.specs.Kinds as kinds;
ghost use Rattle.cell_places.specs.Heap.{kind_at};
ghost use Rattle.cell_places.specs.Acts.{Act, Fits};
ghost use Rattle.cell_places.specs.View.{heap, run};
ghost use Rattle.cell_places.specs.Rooted.{Still};
ghost use Rattle.cell_places.specs.Sound.{IsSound};
ghost use Rattle.dom_tree.specs.Ids.{InTreeOrder, Finds};
ghost use Rattle.dom_tree.specs.Searched.{CanSearch, Searched};

use cell_places::{Answer, CellKind, Cells, DOCUMENT, Slot};
use page_units::{CellName, NoMemory, Text, Value};
use std::alloc::Global;
use tree_shape::answer_at;

/// The first element in tree order with an id, and how many elements were asked for theirs.
#[derive(Clone, Copy)]
pub struct Found {
    /// The element, if there is one.
    pub cell: Option<CellName>,
    /// How many elements were asked, the found one with them.
    pub visited: u64,
}

/// Finds the first element in tree order that has this id (WHATWG DOM, 4.2.4), where the empty id
/// is no element's and nothing is done for it. It looks at each node, and asks each element for its
/// id and then for its children, up to the one that is found, and changes nothing. Out of memory,
/// the heap is as it was; over a layer, some of the reads may have been recorded.
pub fn element_by_id<C: Cells>(alloc: Global, cells: &mut C, id: &Text) -> Result<Found, NoMemory>
    requires sound { (codes : ℕ) × IsSound codes (heap (C.seen cells.old)) }
    ensures finds { IfOk result (λ found. (acts : List Act)
        × Finds (heap (C.seen cells.old)) id.now found.cell found.visited acts
        × (C.seen cells.new ≡ run (C.seen cells.old) acts)
        × Fits (heap (C.seen cells.old)) acts) }
    // One answer for an id.
    ensures one { (cell cell' : Option CellName) (count count' : ℕ) (acts acts' : List Act)
        → Finds (heap (C.seen cells.old)) id.now cell count acts
        → Finds (heap (C.seen cells.old)) id.now cell' count' acts'
        → (cell ≡ cell') × (count ≡ count') × (acts ≡ acts') }
    // What is found is an element.
    ensures element { IfOk result (λ found.
        IfSome found.cell (λ n. kinds.is_element (kind_at (heap (C.seen cells.old)) n) ≡ true)) }
    ensures still { Still (C.seen cells.old) (C.seen cells.new) }
{
    if id.is_empty() {
        return Ok(Found {
            cell: None,
            visited: 0,
        });
    }
    let attribute = id_name(alloc)?;
    let answer = answer_at(cells, DOCUMENT, Slot::Children)?;
    let mut visited = 0;
    let cell = find_among(cells, answer.cells(), &attribute, id, &mut visited)?;
    Ok(Found { cell, visited })
}

/// The name of the attribute that holds an element's id.
fn id_name(alloc: Global) -> Result<Text, NoMemory>
    ensures { IfOk result (λ name. name ≡ codes "id") }
{
    Text::of_ascii(alloc, b"id")
}

/// Finds the first element with the id among these nodes and below them, and counts those that it
/// asks.
#[cycle(find)]
fn find_among<C: Cells>(
    cells: &mut C,
    nodes: &[CellName],
    attribute: &Text,
    id: &Text,
    visited: &mut u64,
) -> Result<Option<CellName>, NoMemory>
    requires attribute { attribute.now ≡ codes "id" }
    requires ready { CanSearch (heap (C.seen cells.old)) nodes.now visited.old }
    ensures found { IfOk result (λ cell. (order : List CellName)
        → InTreeOrder (heap (C.seen cells.old)) nodes.now order
        → Searched (heap (C.seen cells.old)) id.now (C.seen cells.old) (C.seen cells.new)
        order cell visited.old visited.new) }
    ensures still { Still (C.seen cells.old) (C.seen cells.new) }
{
    for node in nodes {
        let found = find_at(cells, *node, attribute, id, visited)?;
        if found.is_some() {
            return Ok(found);
        }
    }
    Ok(None)
}

/// Finds it at one node and below it in the same way.
#[cycle(find)]
fn find_at<C: Cells>(
    cells: &mut C,
    node: CellName,
    attribute: &Text,
    id: &Text,
    visited: &mut u64,
) -> Result<Option<CellName>, NoMemory>
    requires attribute { attribute.now ≡ codes "id" }
    requires ready { CanSearch (heap (C.seen cells.old)) (node ∷ []) visited.old }
    ensures found { IfOk result (λ cell. (order : List CellName)
        → InTreeOrder (heap (C.seen cells.old)) (node ∷ []) order
        → Searched (heap (C.seen cells.old)) id.now (C.seen cells.old) (C.seen cells.new)
        order cell visited.old visited.new) }
    ensures still { Still (C.seen cells.old) (C.seen cells.new) }
{
    if !cells.kind_of(node).is_element() {
        return Ok(None);
    }
    let name = attribute.clone()?;
    let answer = answer_at(cells, node, Slot::Attr(name))?;
    *visited += 1;
    if answer.is_text(id) {
        return Ok(Some(node));
    }
    let answer = answer_at(cells, node, Slot::Children)?;
    find_among(cells, answer.cells(), attribute, id, visited)
}
