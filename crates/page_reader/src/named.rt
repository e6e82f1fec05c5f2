//! Attributes that are found by their names.
ghost use Rattle.std.specs.Prelude.{◌≡◌, [], ◌∷◌, ◌++◌, OnOk, OnErr};
ghost use Rattle.page_reader.specs.Attributes as form;

use crate::node::Attribute;
use page_units::{NoMemory, Text};
use sqlite_items::Items;
use std::alloc::Global;
use std::collections::BTreeSet;
use std::marker::Model;
use std::mem;

/// Attributes in order, as a list. An ordered set has their names, so that a look-up doesn't walk
/// the list.
#[derive(Drop)]
pub struct NamedAttributes {
    items: Items<Attribute>,
    names: BTreeSet<Text>,
}

impl Model for NamedAttributes {
    ghost use Rattle.std.specs.Prelude.{◌≡◌, ℕ, List};
    ghost use Rattle.std.specs.BTreeSet.{contains};
    ghost use Rattle.std.specs.Cmp.Lexicographic.{slice_cmp};
    ghost use Rattle.std.specs.Ordering.{nat_cmp};
    ghost use Rattle.page_reader.specs.declared.node.Attribute.{Attribute};
    ghost use Rattle.page_reader.specs.Attributes.{has_name};

    ghost Value = { List Attribute };

    ghost view = { λ a. a.items };

    // The set has exactly the names of the list.
    ghost invariant = { λ a. (name : List ℕ)
        → contains (slice_cmp nat_cmp) a.names name ≡ has_name a.items name };
}

impl NamedAttributes {
    /// No attribute yet.
    pub fn new(alloc: Global) -> NamedAttributes
        ensures { result ≡ [] }
    {
        NamedAttributes {
            items: Items::new(alloc),
            names: BTreeSet::new(alloc),
        }
    }

    /// Whether one of them has this name.
    pub fn has_name(&self, name: &Text) -> bool
        ensures { result ≡ form.has_name self.now name.now }
    {
        self.names.contains(name)
    }

    /// Puts an attribute behind the others. Where memory is refused, none is left.
    pub fn push(&mut self, alloc: Global, attribute: Attribute) -> Result<(), NoMemory>
        ensures ok { OnOk result (self.new ≡ self.old ++ attribute ∷ []) }
        ensures err { OnErr result (self.new ≡ []) }
    {
        let earlier = mem::replace(self, NamedAttributes::new(alloc));
        let NamedAttributes {
            mut items,
            mut names,
        } = earlier;
        names.insert(attribute.name.clone()?)?;
        items.push(attribute)?;
        *self = NamedAttributes { items, names };
        Ok(())
    }

    /// The list of the attributes.
    pub fn into_items(self) -> Items<Attribute>
        ensures { result ≡ self }
    {
        self.items
    }
}
