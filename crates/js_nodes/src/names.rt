//! Names in order, which are found in an ordered set.
ghost use Rattle.std.specs.Prelude.{◌≡◌, [], ◌∷◌, ◌++◌, IfOk, true};
ghost use Rattle.std.specs.BTreeSet.{Updates};
ghost use Rattle.page_units.specs.Texts.{text_cmp};
ghost use Rattle.js_nodes.specs.Operands as operands;
ghost use Rattle.js_nodes.specs.Pieces as pieces;

use crate::series::State;
use js_tree::Expr;
use page_units::{NoMemory, Text};
use sqlite_items::{Boxed, Items};
use std::alloc::Global;
use std::collections::BTreeSet;
use std::marker::Model;

/// Names in order, as a list. An ordered set of the same names finds each of them, so that a look-up doesn't walk the list.
#[derive(Drop)]
pub struct Names {
    items: Items<Text>,
    sorted: BTreeSet<Text>,
}

impl Model for Names {
    ghost use Rattle.std.specs.Prelude.{ℕ, List};
    ghost use Rattle.std.specs.Coded.{coded_list, coded_ℕ};
    ghost use Rattle.js_nodes.specs.Lookups.{Finds};

    ghost Value = { List (List ℕ) };

    ghost coded = { coded_list (coded_list coded_ℕ) };

    ghost view = { λ a. a.items };

    ghost invariant = { λ a. Finds (λ m. m) a.sorted a.items };
}

impl Names {
    /// No name yet.
    pub fn new(alloc: Global) -> Names
        ensures { result ≡ [] }
    {
        Names {
            items: Items::new(alloc),
            sorted: BTreeSet::new(alloc),
        }
    }

    /// Whether the name is among these.
    pub fn has(&self, name: &Text) -> bool
        ensures { result ≡ pieces.has self.now name.now }
    {
        self.sorted.contains(name)
    }

    /// With a name behind the others.
    pub fn put(self, name: Text) -> Result<Names, NoMemory>
        ensures { IfOk result (λ names. names ≡ self ++ name ∷ []) }
    {
        let Names { mut items, sorted } = self;
        let sorted = with_name(sorted, &name)?;
        items.push(name)?;
        Ok(Names { items, sorted })
    }

    /// With a name among the others, once.
    pub fn put_once(self, name: Text) -> Result<Names, NoMemory>
        ensures { IfOk result (λ names. names ≡ pieces.once self name) }
    {
        if self.has(&name) {
            return Ok(self);
        }
        self.put(name)
    }

    /// The list of the names.
    pub fn into_items(self) -> Items<Text>
        ensures { result ≡ self }
    {
        self.items
    }
}

/// A set with one name more.
pub(crate) fn with_name(sorted: BTreeSet<Text>, name: &Text) -> Result<BTreeSet<Text>, NoMemory>
    ensures { IfOk result (λ more. Updates text_cmp sorted more name.now true) }
{
    let mut sorted = sorted;
    sorted.insert(name.clone()?)?;
    Ok(sorted)
}

/// The name that an expression is; the empty text where it is none.
pub fn name_of(alloc: Global, value: Boxed<Expr>) -> Result<Text, NoMemory>
    ensures { IfOk result (λ n. n ≡ operands.name_of value) }
{
    match value.into_inner() {
        Expr::Name(name) => Ok(name),
        _ => Text::of_units(Vec::new(alloc)),
    }
}

impl State {
    /// With a name that `var` declares.
    pub fn declare(self, name: &Text) -> Result<State, NoMemory>
        ensures { IfOk result (λ s. s ≡ pieces.declared self name.now) }
    {
        let State { codes, vars } = self;
        let vars = vars.put_once(name.clone()?)?;
        Ok(State { codes, vars })
    }
}
