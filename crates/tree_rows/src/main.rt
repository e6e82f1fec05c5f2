//! Rows of heaps, places and names of elements, worked out by hand: what `cell_places`, `cell_heap` and `dom_tree` make
//! of them.
#![tactic(auto)]

mod fields;
mod heaps;
mod names;
mod places;
mod readers;
mod start;

use row_files::{Answers, run};
use std::alloc::{AllocError, Global};

struct Trees;

impl Answers for Trees {
    fn answer(&self, alloc: Global, group: &str, fields: &[String]) -> Result<String, AllocError> {
        match group {
            "places, by cell, then by slot, then by text" => places::order(alloc, fields),
            "places and their clones" => places::compared_clone(alloc, fields),
            "clones of kinds and answers" => places::other_clone(alloc, fields),
            "classes of kinds" => readers::classes(alloc, fields),
            "what answers hold" => readers::held(alloc, fields),
            "clones of what lists hold" => readers::list_clone(alloc, fields),
            "change numbers" => readers::change_number(alloc, fields),
            "heaps at their start" => heaps::started(alloc, fields),
            "the cells of a start" => start::cell(alloc, fields),
            "puts, makes" => heaps::acts(alloc, fields),
            "charges, within the limit, to it, and one above" => heaps::charges(alloc, fields),
            "void names" => names::void_name(alloc, fields),
            "raw names" => names::raw_name(alloc, fields),
            _ => String::from_str(alloc, "no such group"),
        }
    }
}

fn main(rt: HostRuntime) -> anyhow::Result<()> {
    run(rt, &Trees)
}
