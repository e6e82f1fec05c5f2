//! Texts of 16-bit units (ECMA-262 5.1, 8.4).
ghost use Rattle.std.specs.Prelude.{◌≡◌, ℕ, ◌<◌, List, length, IfOk, ◌≤◌, ◌-◌, ◌++◌, take, drop, slice_get, Some, refl, nat_eq, bytes_eq};
ghost use Rattle.std.specs.Cmp.Lexicographic.{pointwise, nat_list_eq_equiv, nat_list_cmp_total, texts_ties, texts_po};
ghost use Rattle.std.specs.Cmp.{partial_equiv_from_equiv};
ghost use Rattle.page_units.specs.Coding.{IsUnits, units_of_utf8};
ghost use Rattle.page_units.specs.Digits.{digits};
ghost use Rattle.page_units.specs.Texts.{text_cmp};

use crate::coding::units_of_str;
use crate::digits::{number_len, push_number};
use crate::fault::NoMemory;
use crate::spelling::{is_word, push_ascii};
use std::alloc::Global;
use std::cmp::Ordering;
use std::marker::Model;
use std::rc::RcSlice;

/// How many UTF-16 units a text of a script has at most (this project's own). A `Text` by itself
/// may be longer.
pub const LONGEST_TEXT: usize = 65_535;

/// A text: a list of UTF-16 units, of which a surrogate may stand alone. Clones share the units.
#[derive(Drop)]
pub struct Text {
    units: RcSlice<u16>,
}

impl Model for Text {
    ghost use Rattle.std.specs.Prelude.{ℕ, List};
    ghost use Rattle.std.specs.Rc.{rc_slice_items};
    ghost use Rattle.std.specs.Coded.{coded_list, coded_ℕ};
    ghost use Rattle.page_units.specs.Coding.{IsUnits};

    ghost Value = { List ℕ };

    ghost coded = { coded_list coded_ℕ };

    ghost view = { λ a. rc_slice_items a.units };

    ghost invariant = { λ a. IsUnits (rc_slice_items a.units) };
}

impl Text {
    /// The text of these units.
    pub fn of_units(units: Vec<u16>) -> Result<Text, NoMemory>
        ensures { IfOk result (λ t. t ≡ units.items) }
    {
        Ok(Text {
            units: RcSlice::from_vec(units)?,
        })
    }

    /// The text of ASCII characters, a unit each.
    pub fn of_ascii(alloc: Global, characters: &[u8]) -> Result<Text, NoMemory>
        ensures { IfOk result (λ t. t ≡ characters.now) }
    {
        let mut units = Vec::with_capacity(alloc, characters.len())?;
        push_ascii(&mut units, characters)?;
        Text::of_units(units)
    }

    /// The text of a `str`.
    pub fn of_str(alloc: Global, characters: &str) -> Result<Text, NoMemory>
        ensures { IfOk result (λ t. t ≡ units_of_utf8 characters.now) }
    {
        Text::of_units(units_of_str(alloc, characters)?)
    }

    /// The digits of a number, behind `-` where it is less than 0.
    pub fn of_number(alloc: Global, number: i64) -> Result<Text, NoMemory>
        ensures { IfOk result (λ t. t ≡ digits number) }
    {
        let mut units = Vec::with_capacity(alloc, number_len(number))?;
        push_number(&mut units, number)?;
        Text::of_units(units)
    }

    /// How many units the text has.
    pub fn len(&self) -> usize
        ensures { result ≡ length self.now }
    {
        self.units.len()
    }

    /// Whether the text has no unit.
    pub fn is_empty(&self) -> bool
        ensures { result ≡ nat_eq (length self.now) 0 }
    {
        self.units.len() == 0
    }

    /// Whether the text is this ASCII word.
    pub fn is_word(&self, word: &[u8]) -> bool
        ensures { result ≡ bytes_eq self.now word.now }
    {
        is_word(self.units(), word)
    }

    /// The units, in order.
    pub fn units(&self) -> &[u16]
        ensures value { result.now ≡ self.now }
        ensures fit { IsUnits self.now }
    {
        self.units.as_slice()
    }

    /// The unit at an index, from 0; None past the end.
    pub fn unit(&self, index: usize) -> Option<u16>
        ensures { result ≡ slice_get self.now index }
    {
        self.units().get(index).copied()
    }

    /// The units from index `from` up to `to`, which isn't among them. The whole text shares its
    /// units. Out of memory there is no text, and this one is as it was.
    pub fn slice(&self, alloc: Global, from: usize, to: usize) -> Result<Text, NoMemory>
        requires order { from ≤ to }
        requires within { to ≤ length self.now }
        ensures { IfOk result (λ t. t ≡ take (to - from) (drop from self.now)) }
    {
        if from == 0 && to == self.len() {
            return self.clone();
        }
        Text::of_units(Vec::from_slice(alloc, &self.units()[from..to])?)
    }

    /// This text and the other behind it. Where one is empty, the units of the other are shared.
    /// Out of memory there is no text, and both are as they were.
    pub fn concat(&self, alloc: Global, other: &Text) -> Result<Text, NoMemory>
        ensures { IfOk result (λ t. t ≡ self.now ++ other.now) }
    {
        if other.is_empty() {
            return self.clone();
        }
        if self.is_empty() {
            return other.clone();
        }
        let (first, second) = (self.units(), other.units());
        let mut units = Vec::with_capacity(alloc, first.len() + second.len())?;
        units.extend_from_slice(first)?;
        units.extend_from_slice(second)?;
        Text::of_units(units)
    }
}

impl Clone for Text {
    ghost is_clone = { λ a b. b ≡ a };

    fn clone(&self) -> Result<Text, NoMemory> {
        Ok(Text {
            units: self.units.clone()?,
        })
    }
}

impl PartialEq for Text {
    ghost eq = { pointwise nat_eq };

    ghost laws = { partial_equiv_from_equiv nat_list_eq_equiv };

    fn eq(&self, other: &Text) -> bool {
        self.units() == other.units()
    }
}

impl Eq for Text {
    ghost laws = { nat_list_eq_equiv };
}

impl PartialOrd for Text {
    ghost partial_cmp = { λ x y. Some (text_cmp x y) };

    ghost laws = { texts_po };

    fn partial_cmp(&self, other: &Text) -> Option<Ordering> {
        Some(self.cmp(other))
    }
}

impl Ord for Text {
    ghost cmp = { text_cmp };

    ghost total = { nat_list_cmp_total };

    ghost matches_partial_cmp = { λ x y. refl };

    ghost matches_eq = { λ x y. texts_ties x y };

    fn cmp(&self, other: &Text) -> Ordering {
        self.units().cmp(other.units())
    }
}
