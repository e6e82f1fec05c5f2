//! Reads a page into a heap.
ghost use Rattle.std.specs.Prelude.{◌≡◌, ◌<◌, ◌+◌, ℕ, List, [], length, IfOk, OnOk, All};
ghost use Rattle.grammar.specs.Exactly.{Exactly};
ghost use Rattle.cell_places.specs.Heap.{children_at, weight_left};
ghost use Rattle.cell_places.specs.View.{heap};
ghost use Rattle.cell_places.specs.Rooted.{Rooted};
ghost use Rattle.cell_places.specs.Start.{document_cell};
ghost use Rattle.cell_places.specs.Sound.{IsSound, SumsWithin};
ghost use Rattle.tree_shape.specs.Trees.{Trees};
ghost use Rattle.page_reader.specs.declared.page.ScriptText.{ScriptText};
ghost use Rattle.page_reader.specs.Page.{IsPage};
ghost use Rattle.page_reader.specs.Reading.{PageRead, HasScripts, ShowsFault, report};
ghost use Rattle.page_reader.specs.Texts.{IsText};

use crate::fault::PageFault;
use crate::plant::plant;
use crate::whole::read_tree;
use cell_places::Cells;
use std::alloc::Global;

/// A script of a page: its number in tree order, from 0, and the slice of the page's bytes that is its
/// content, from the byte `at` to before the byte `end`, counted from 0.
#[derive(Clone, Copy, Debug, PartialEq, Eq)]
pub struct ScriptText {
    pub index: u32,
    pub at: u32,
    pub end: u32,
}

/// What a page has besides its tree: its scripts, in tree order.
#[derive(Drop)]
pub struct PageParts {
    pub scripts: Vec<ScriptText>,
}

/// Reads the bytes as a page and puts its tree under the document, which must be empty. It charges
/// nothing.
///
/// `Rule` comes exactly where the bytes are no page, with the number of the rule that they break and
/// the byte at which; then nothing is changed. `NoMemory` comes where memory was refused; then the
/// heap is to be given up.
pub fn read_page<C: Cells>(
    alloc: Global,
    cells: &mut C,
    bytes: &[u8],
) -> Result<PageParts, PageFault>
    requires sound { (codes : ℕ) × IsSound codes (heap (C.seen cells.old)) }
    requires empty { children_at (heap (C.seen cells.old)) document_cell ≡ [] }
    requires room { length (heap (C.seen cells.old)).kinds + weight_left (heap (C.seen cells.old))
        < 3998000000 }
    ensures exactly { Exactly (HasScripts bytes.now) (ShowsFault bytes.now) (report result) }
    // What is read is put under the document, and a fault changes nothing.
    ensures page { PageRead result (C.seen cells.old) (C.seen cells.new) bytes.now }
    // A page has one tree and one list of scripts.
    ensures one { (trees trees' : Trees) (scripts scripts' : List ScriptText)
        → IsPage bytes.now trees scripts
        → IsPage bytes.now trees' scripts' → (trees ≡ trees') × (scripts ≡ scripts') }
    // Each script is whole characters of the page.
    ensures texts { IfOk result (λ parts. All (IsText bytes.now) parts.scripts.items) }
    ensures sound { OnOk result ((codes : ℕ) → IsSound codes (heap (C.seen cells.old))
        → IsSound codes (heap (C.seen cells.new))) }
    ensures sums { OnOk result ((bound : ℕ) → SumsWithin bound (heap (C.seen cells.old))
        → SumsWithin (bound + length bytes.now) (heap (C.seen cells.new))) }
    ensures rooted { Rooted (C.seen cells.old) (C.seen cells.new) }
{
    let page = read_tree(alloc, bytes)?;
    plant(alloc, cells, &page.root)?;
    Ok(PageParts {
        scripts: page.scripts,
    })
}
