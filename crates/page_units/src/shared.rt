//! Lists whose clones share their items.
ghost use Rattle.std.specs.Prelude.{◌≡◌, List, length, IfOk, slice_get};
ghost use Rattle.std.specs.Option.{option_copied};

use crate::fault::NoMemory;
use std::marker::Model;
use std::rc::RcSlice;

/// A list that is never changed. Clones share the items.
#[derive(Drop)]
pub struct Shared<T> {
    items: RcSlice<T>,
}

impl<T> Model for Shared<T> {
    ghost use Rattle.std.specs.Prelude.{List};
    ghost use Rattle.std.specs.Rc.{rc_slice_items};
    ghost use Rattle.std.specs.Coded.{coded_list};

    ghost Value = { List T };

    ghost coded = { coded_list T.code };

    ghost view = { λ a. rc_slice_items a.items };
}

impl<T: Drop> Shared<T> {
    /// The list of these items.
    pub fn of_vec(items: Vec<T>) -> Result<Shared<T>, NoMemory>
        ensures { IfOk result (λ t. t ≡ items.items) }
    {
        Ok(Shared {
            items: RcSlice::from_vec(items)?,
        })
    }

    /// How many items there are.
    pub fn len(&self) -> usize
        ensures { result ≡ length self.now }
    {
        self.items.len()
    }

    /// The items, in order.
    pub fn as_slice(&self) -> &[T]
        ensures { result.now ≡ self.now }
    {
        self.items.as_slice()
    }

    /// The item at an index, from 0; None past the end.
    pub fn get(&self, index: usize) -> Option<&T>
        ensures { option_copied result ≡ slice_get self.now index }
    {
        self.items.as_slice().get(index)
    }
}

impl<T: Drop> Clone for Shared<T> {
    ghost is_clone = { λ a b. b ≡ a };

    fn clone(&self) -> Result<Shared<T>, NoMemory> {
        Ok(Shared {
            items: self.items.clone()?,
        })
    }
}
