//! Cells that are asked, put and made.
ghost use Rattle.std.specs.Prelude.{◌≡◌, ◌+◌, ◌<◌, ◌≤◌, length, slice_get, Some, List};
ghost use Rattle.std.specs.Prelude.{IfOk, IfErr, OnOk, OnErr};
ghost use Rattle.cell_places.specs.Heap.{next};
ghost use Rattle.cell_places.specs.Valid.{CanAsk, CanPut, CanMake, IsBare};
ghost use Rattle.cell_places.specs.Acts.{Act, asked, placed, made, charged};
ghost use Rattle.cell_places.specs.View.{View, heap, number_of, step, run, Lapsed};
ghost use Rattle.cell_places.specs.ChangeNumbers.{KeepsNumber};

use crate::answer::Answer;
use crate::kind::CellKind;
use crate::place::Place;
use page_units::{CellName, NoMemory};

/// Why a charge was refused.
#[derive(Clone, Copy, Debug, PartialEq, Eq)]
pub enum CellFault {
    /// The weight that is spent and the weight that was wanted are above the limit together.
    Full { spent: u64, wants: u64 },
}

/// A heap of cells. Each call is one act on what a contract sees of it, and leaves all else as it
/// was.
pub trait Cells {
    /// A heap, or a layer over what lies beneath, which records its first reads.
    ghost seen: { Self → View };

    /// What stands at the place. Out of memory, nothing changes but that, over a layer, the read
    /// may be recorded beneath.
    fn ask(&mut self, place: &Place) -> Result<Answer, NoMemory>
        requires { CanAsk (heap (seen self.old)) place.now }
        ensures answer { IfOk result (λ a. a ≡ (heap (seen self.old)).at place.now) }
        ensures ok { IfOk result (λ a. seen self.new ≡ step (seen self.old) (asked place.now a)) }
        ensures err { OnErr result (Lapsed (seen self.old) (seen self.new) place.now) };

    /// Puts an answer at the place, and changes no other place. Out of memory, nothing changes.
    fn put(&mut self, place: &Place, answer: Answer) -> Result<(), NoMemory>
        requires { CanPut (heap (seen self.old)) place.now answer }
        ensures ok { OnOk result (seen self.new ≡ step (seen self.old) (placed place.now answer)) }
        ensures err { OnErr result (seen self.new ≡ seen self.old) };

    /// Makes a cell of this kind: its name is the count of cells. Out of memory, nothing changes.
    fn make(&mut self, kind: CellKind) -> Result<CellName, NoMemory>
        requires { CanMake (heap (seen self.old)) kind }
        ensures name { IfOk result (λ n. n ≡ next (heap (seen self.old))) }
        ensures ok { IfOk result (λ n. seen self.new ≡ step (seen self.old) (made n kind)) }
        ensures err { OnErr result (seen self.new ≡ seen self.old) };

    /// The kind of a cell that is there.
    fn kind_of(&self, cell: CellName) -> &CellKind
        requires { cell.0 < length (heap (seen self.now)).kinds }
        ensures { slice_get (heap (seen self.now)).kinds cell.0 ≡ Some result.now };

    /// Spends a weight, or refuses it exactly where it would pass the limit, and then changes
    /// nothing.
    fn charge(&mut self, weight: u64) -> Result<(), CellFault>
        ensures ok { OnOk result ((heap (seen self.old)).spent + weight ≤ (heap (seen self.old)).limit) }
        ensures spent { OnOk result (seen self.new ≡ step (seen self.old) (charged weight)) }
        ensures full { IfErr result (λ e. e ≡ CellFault.Full (heap (seen self.old)).spent weight) }
        ensures refused { OnErr result ((heap (seen self.old)).limit < (heap (seen self.old)).spent + weight) }
        ensures err { OnErr result (seen self.new ≡ seen self.old) };

    /// The weight that is spent.
    fn spent(&self) -> u64
        ensures { result ≡ (heap (seen self.now)).spent };

    /// How many cells there are. Nothing stands at a cell that isn't there.
    fn count(&self) -> u32
        ensures count { result ≡ length (heap (seen self.now)).kinds }
        ensures bare { IsBare (heap (seen self.now)) };

    /// The change number of a cell. Whatever is done later: where a number is there then too, it
    /// hasn't fallen, where it is the same, so is each answer at the cell, and where there is none
    /// now, there is none then. It takes no memory.
    fn number(&self, cell: CellName) -> Option<u64>
        ensures number { result ≡ number_of (seen self.now) cell }
        ensures kept { (acts : List Act) → KeepsNumber cell (seen self.now) (run (seen self.now) acts) };
}
