//! The heap that a page runs on. What it starts with is made in `start`.
ghost use Rattle.std.specs.Prelude.{◌≡◌, ◌≤◌, length};
ghost use Rattle.cell_places.specs.Start.{bare_heap};
ghost use Rattle.cell_places.specs.View.{ground, uncounted};
ghost use Rattle.cell_heap.specs.Slots.{NothingPast};

use cell_places::{Answer, CellFault, CellKind, Cells, Place};
use page_units::{CellName, NoMemory};
use std::alloc::Global;
use std::collections::BTreeMap;

/// The heap as one ordered map from places to answers, with the kinds of its cells and its weight.
/// It doesn't record its reads, and doesn't count its puts.
#[derive(Drop)]
pub struct Base {
    slots: BTreeMap<Place, Answer>,
    kinds: Vec<CellKind>,
    spent: u64,
    limit: u64,
    ghost few: { length kinds.items ≤ 4000000000 },
    ghost bare: { NothingPast slots kinds.items },
}

impl Base {
    ghost use Rattle.cell_heap.specs.Base.{heap_of};

    pub(crate) fn of_kinds(alloc: Global, kinds: Vec<CellKind>, weight: u64) -> Base
        requires { length kinds.items ≤ 4000000000 }
        ensures { heap_of result ≡ bare_heap kinds.items weight }
    {
        Base {
            slots: BTreeMap::new(alloc),
            kinds,
            spent: 0,
            limit: weight,
        }
    }

    /// The greatest weight that can be spent. It takes no memory.
    pub fn limit(&self) -> u64
        ensures { result ≡ (heap_of self.now).limit }
    {
        self.limit
    }
}

impl Cells for Base {
    ghost use Rattle.cell_heap.specs.Base.{heap_of};

    ghost seen = { λ base. ground (heap_of base) uncounted };

    fn ask(&mut self, place: &Place) -> Result<Answer, NoMemory> {
        match self.slots.get(place) {
            Some(answer) => answer.clone(),
            None => Ok(Answer::Absent),
        }
    }

    fn put(&mut self, place: &Place, answer: Answer) -> Result<(), NoMemory> {
        match answer {
            Answer::Absent => {
                self.slots.remove(place);
                Ok(())
            }
            some => {
                let key = place.clone()?;
                self.slots.insert(key, some)?;
                Ok(())
            }
        }
    }

    fn make(&mut self, kind: CellKind) -> Result<CellName, NoMemory> {
        let name = CellName(self.kinds.len() as u32);
        self.kinds.push(kind)?;
        Ok(name)
    }

    fn kind_of(&self, cell: CellName) -> &CellKind {
        &self.kinds[cell.0 as usize]
    }

    fn charge(&mut self, weight: u64) -> Result<(), CellFault> {
        let limit = self.limit;
        match self.spent.checked_add(weight) {
            Some(spent) if spent <= limit => {
                self.spent = spent;
                Ok(())
            }
            _ => Err(CellFault::Full {
                spent: self.spent,
                wants: weight,
            }),
        }
    }

    fn spent(&self) -> u64 {
        self.spent
    }

    fn count(&self) -> u32 {
        self.kinds.len() as u32
    }

    fn number(&self, _cell: CellName) -> Option<u64> {
        None
    }
}
