//! Entries in order, whose keys are found in an ordered set.
ghost use Rattle.std.specs.Prelude.{◌≡◌, [], ◌∷◌, ◌++◌, IfOk};
ghost use Rattle.js_nodes.specs.Pieces as pieces;

use crate::names::with_name;
use js_tree::Entry;
use page_units::{NoMemory, Text};
use sqlite_items::Items;
use std::alloc::Global;
use std::collections::BTreeSet;
use std::marker::Model;

/// Entries in order, as a list. An ordered set of their keys finds each key, so that a look-up doesn't walk the list.
#[derive(Drop)]
pub struct KeyedEntries {
    items: Items<Entry>,
    keys: BTreeSet<Text>,
}

impl Model for KeyedEntries {
    ghost use Rattle.std.specs.Prelude.{List};
    ghost use Rattle.std.specs.Coded.{coded_list};
    ghost use Rattle.js_nodes.specs.Lookups.{Finds};
    ghost use Rattle.js_tree.specs.contracts.expr.Entry as entry_data;
    ghost use Rattle.js_tree.specs.declared.expr.Entry.{Entry};

    ghost Value = { List Entry };

    ghost coded = { coded_list entry_data.the_row.coded };

    ghost view = { λ a. a.items };

    ghost invariant = { λ a. Finds (λ (entry : Entry). entry.key) a.keys a.items };
}

impl KeyedEntries {
    /// No entry yet.
    pub fn new(alloc: Global) -> KeyedEntries
        ensures { result ≡ [] }
    {
        KeyedEntries {
            items: Items::new(alloc),
            keys: BTreeSet::new(alloc),
        }
    }

    /// Whether an entry has this key.
    pub fn has_key(&self, key: &Text) -> bool
        ensures { result ≡ pieces.has_key self.now key.now }
    {
        self.keys.contains(key)
    }

    /// With an entry behind the others.
    pub fn put(self, entry: Entry) -> Result<KeyedEntries, NoMemory>
        ensures { IfOk result (λ entries. entries ≡ self ++ entry ∷ []) }
    {
        let KeyedEntries { mut items, keys } = self;
        let keys = with_name(keys, &entry.key)?;
        items.push(entry)?;
        Ok(KeyedEntries { items, keys })
    }

    /// The list of the entries.
    pub fn into_items(self) -> Items<Entry>
        ensures { result ≡ self }
    {
        self.items
    }
}
