//! Slots and places, in one total order: by cell, then by slot, then by text (this project's own).
ghost use Rattle.std.specs.Prelude.{◌≡◌, refl};
ghost use Rattle.std.specs.Cmp.{partial_equiv_from_equiv, eq_by_cmp_equiv, partial_order_from_total};
ghost use Rattle.std.specs.Ordering.{eq_by_cmp, as_partial_cmp};
ghost use Rattle.cell_places.specs.Places.{slot_rank, slot_units, place_cmp, place_cmp_total};

use page_units::{CellName, NoMemory, Text};
use std::cmp::Ordering;

/// What a cell can hold something in. Which kinds have which slot, and which answers suit it, is
/// the table of `specs/Slots.antt`.
#[derive(Drop)]
pub enum Slot {
    /// An own property.
    Own(Text),
    /// The enumerable own keys, in order.
    Keys,
    /// The prototype.
    Proto,
    /// A list's length.
    Length,
    /// A scope's binding.
    Bind(Text),
    /// A node's parent.
    Parent,
    /// A node's children, in order.
    Children,
    /// An element's attribute.
    Attr(Text),
    /// The names of an element's attributes, in order of insertion.
    AttrNames,
    /// A text node's characters.
    Chars,
    /// An object's listeners.
    Heard,
    /// An event's flags: 1 stop, 2 stop now, 4 canceled, as a sum.
    Flags,
    /// The page's clock, in milliseconds.
    Clock,
    NextTimer,
    Timers,
    NextGuess,
    Guesses,
}

/// A slot of a cell.
#[derive(Drop)]
pub struct Place {
    pub cell: CellName,
    pub slot: Slot,
}

impl Slot {
    /// The slot's number in the order of slots.
    pub fn rank(&self) -> u8
        ensures { result ≡ slot_rank self.now }
    {
        match self {
            Slot::Own(_) => 0,
            Slot::Keys => 1,
            Slot::Proto => 2,
            Slot::Length => 3,
            Slot::Bind(_) => 4,
            Slot::Parent => 5,
            Slot::Children => 6,
            Slot::Attr(_) => 7,
            Slot::AttrNames => 8,
            Slot::Chars => 9,
            Slot::Heard => 10,
            Slot::Flags => 11,
            Slot::Clock => 12,
            Slot::NextTimer => 13,
            Slot::Timers => 14,
            Slot::NextGuess => 15,
            Slot::Guesses => 16,
        }
    }

    /// The units of the slot's text, if it has one.
    pub fn units(&self) -> &[u16]
        ensures { result.now ≡ slot_units self.now }
    {
        match self {
            Slot::Own(key) => key.units(),
            Slot::Bind(name) => name.units(),
            Slot::Attr(name) => name.units(),
            _ => &[],
        }
    }
}

impl Clone for Slot {
    ghost is_clone = { λ a b. b ≡ a };

    fn clone(&self) -> Result<Slot, NoMemory> {
        match self {
            Slot::Own(key) => Ok(Slot::Own(key.clone()?)),
            Slot::Keys => Ok(Slot::Keys),
            Slot::Proto => Ok(Slot::Proto),
            Slot::Length => Ok(Slot::Length),
            Slot::Bind(name) => Ok(Slot::Bind(name.clone()?)),
            Slot::Parent => Ok(Slot::Parent),
            Slot::Children => Ok(Slot::Children),
            Slot::Attr(name) => Ok(Slot::Attr(name.clone()?)),
            Slot::AttrNames => Ok(Slot::AttrNames),
            Slot::Chars => Ok(Slot::Chars),
            Slot::Heard => Ok(Slot::Heard),
            Slot::Flags => Ok(Slot::Flags),
            Slot::Clock => Ok(Slot::Clock),
            Slot::NextTimer => Ok(Slot::NextTimer),
            Slot::Timers => Ok(Slot::Timers),
            Slot::NextGuess => Ok(Slot::NextGuess),
            Slot::Guesses => Ok(Slot::Guesses),
        }
    }
}

impl Clone for Place {
    ghost is_clone = { λ a b. b ≡ a };

    fn clone(&self) -> Result<Place, NoMemory> {
        Ok(Place {
            cell: self.cell,
            slot: self.slot.clone()?,
        })
    }
}

impl PartialEq for Place {
    ghost eq = { eq_by_cmp place_cmp };

    ghost laws = { partial_equiv_from_equiv (eq_by_cmp_equiv place_cmp_total) };

    fn eq(&self, other: &Place) -> bool {
        self.cmp(other).is_eq()
    }
}

impl Eq for Place {
    ghost laws = { eq_by_cmp_equiv place_cmp_total };
}

impl PartialOrd for Place {
    ghost partial_cmp = { as_partial_cmp place_cmp };

    ghost laws = { partial_order_from_total place_cmp_total };

    fn partial_cmp(&self, other: &Place) -> Option<Ordering> {
        Some(self.cmp(other))
    }
}

impl Ord for Place {
    ghost cmp = { place_cmp };

    ghost total = { place_cmp_total };

    ghost matches_partial_cmp = { λ x y. refl };

    ghost matches_eq = { λ x y. refl };

    fn cmp(&self, other: &Place) -> Ordering {
        self.cell
            .0
            .cmp(&other.cell.0)
            .then(self.slot.rank().cmp(&other.slot.rank()))
            .then(self.slot.units().cmp(other.slot.units()))
    }
}
