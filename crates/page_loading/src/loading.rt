//! Loads a page into a heap.
ghost use Rattle.std.specs.Prelude.{◌≡◌, ◌<◌, ◌+◌, ℕ, [], length, IfOk, OnOk, All};
ghost use Rattle.grammar.specs.Exactly.{Exactly};
ghost use Rattle.cell_places.specs.Heap.{children_at, weight_left};
ghost use Rattle.cell_places.specs.View.{heap};
ghost use Rattle.cell_places.specs.Rooted.{Rooted};
ghost use Rattle.cell_places.specs.Start.{document_cell};
ghost use Rattle.cell_places.specs.Sound.{IsSound, SumsWithin};
ghost use Rattle.js_tree.specs.Valid.{IsValid};
ghost use Rattle.page_loading.specs.Loading.{HasPrograms, ShowsFault, report, Loaded};

use crate::fault::LoadFault;
use crate::programs::programs_of;
use cell_places::Cells;
use js_tree::Program;
use page_reader::read_page;
use std::alloc::Global;
use std::str;

/// Reads the bytes as a page, puts its tree under the document, which must be empty, and reads the
/// program of each of its scripts, in order. It runs none of them, and charges nothing.
///
/// # Errors
///
/// `Page` exactly where the bytes are not a page: the rule that they break; then nothing is changed.
/// `Script` exactly where a script of the page is not a program: the number and the fault of the first
/// such; then the page's tree is in the heap. `NoMemory` where the allocator refused; then the heap is
/// to be given up.
pub fn read_scripts<C: Cells>(
    alloc: Global,
    cells: &mut C,
    bytes: &[u8],
) -> Result<Vec<Program>, LoadFault>
    requires sound { (codes : ℕ) × IsSound codes (heap (C.seen cells.old)) }
    requires empty { children_at (heap (C.seen cells.old)) document_cell ≡ [] }
    requires room { length (heap (C.seen cells.old)).kinds + weight_left (heap (C.seen cells.old))
        < 3998000000 }
    ensures exactly { Exactly (HasPrograms bytes.now) (ShowsFault bytes.now) (report result) }
    // The page's tree is put under the document, also where a script is not a program.
    ensures loaded { Loaded result (C.seen cells.old) (C.seen cells.new) bytes.now }
    ensures valid { IfOk result (λ programs. All IsValid programs.items) }
    ensures sound { OnOk result ((codes : ℕ) → IsSound codes (heap (C.seen cells.old))
        → IsSound codes (heap (C.seen cells.new))) }
    ensures sums { OnOk result ((bound : ℕ) → SumsWithin bound (heap (C.seen cells.old))
        → SumsWithin (bound + length bytes.now) (heap (C.seen cells.new))) }
    ensures rooted { Rooted (C.seen cells.old) (C.seen cells.new) }
{
    let parts = read_page(alloc, cells, bytes)?;
    let text = str::from_utf8(bytes).unwrap();
    programs_of(alloc, text, &parts.scripts)
}
