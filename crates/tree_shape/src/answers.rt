//! What stands in a node's slots (this project's own).
ghost use Rattle.std.specs.Prelude.{◌≡◌, IfOk};
ghost use Rattle.cell_places.specs.Heap.{place};
ghost use Rattle.cell_places.specs.Acts.{asked};
ghost use Rattle.cell_places.specs.View.{heap, step};
ghost use Rattle.cell_places.specs.Rooted.{Still};
ghost use Rattle.cell_places.specs.Valid.{CanAsk};

use cell_places::{Answer, Cells, Place, Slot};
use page_units::{CellName, NoMemory};

/// What stands in a slot of a node. Nothing changes; out of memory, over a layer, the read may have
/// been recorded.
pub fn answer_at<C: Cells>(cells: &mut C, node: CellName, slot: Slot) -> Result<Answer, NoMemory>
    requires { CanAsk (heap (C.seen cells.old)) (place node slot) }
    ensures answer { IfOk result (λ a. a ≡ (heap (C.seen cells.old)).at (place node slot)) }
    ensures asks { IfOk result (λ a.
        C.seen cells.new ≡ step (C.seen cells.old) (asked (place node slot) a)) }
    ensures still { Still (C.seen cells.old) (C.seen cells.new) }
{
    cells.ask(&Place { cell: node, slot })
}
