//! Rows of texts, numbers, streams and shelves, worked out by hand: what `page_units` and `placed_chars` make of them.
#![tactic(auto)]

mod coding;
mod fields;
mod numbers;
mod parts;
mod places;
mod shelves;
mod sinks;
mod sources;
mod spelling;
mod texts;
mod told;

use row_files::{Answers, run};
use std::alloc::{AllocError, Global};

/// The runtime, whose files one of the groups fetches.
#[derive(Drop)]
struct Units {
    rt: HostRuntime,
}

impl Answers for Units {
    fn answer(&self, alloc: Global, group: &str, fields: &[String]) -> Result<String, AllocError> {
        match group {
            "texts, in the order of their units" => texts::order(alloc, fields),
            "texts and their clones" => texts::compared_clone(alloc, fields),
            "texts, their lengths and units" => texts::length_and_units(alloc, fields),
            "units of texts" => parts::unit(alloc, fields),
            "parts of texts" => parts::slice(alloc, fields),
            "texts put together" => parts::concat(alloc, fields),
            "clones of shared lists" => texts::shared_clone(alloc, fields),
            "items of shared lists" => texts::shared_item(alloc, fields),
            "blanks" => texts::blank(alloc, fields),
            "texts of bytes" => coding::text_of_bytes(alloc, fields),
            "bytes of texts" => coding::bytes_of_text(alloc, fields),
            "characters and their places" => places::character(alloc, fields),
            _ => spelled(self.rt, alloc, group, fields),
        }
    }
}

/// The answers of the groups of spelled texts.
fn spelled(
    rt: HostRuntime,
    alloc: Global,
    group: &str,
    fields: &[String],
) -> Result<String, AllocError> {
    match group {
        "texts that are ASCII words" => spelling::word(alloc, fields),
        "texts of ASCII characters" => spelling::ascii(alloc, fields),
        "texts of characters" => spelling::characters(alloc, fields),
        "characters behind one another" => spelling::appended(alloc, fields),
        "digits of numbers" => spelling::digits(alloc, fields),
        "numbers behind one another" => spelling::numbers(alloc, fields),
        "values of digits" => parts::digit(alloc, fields),
        "bounds of numbers and texts" => parts::bound(alloc, fields),
        _ => outside(rt, alloc, group, fields),
    }
}

/// The answers of the groups of limits, meters and what lies outside.
fn outside(
    rt: HostRuntime,
    alloc: Global,
    group: &str,
    fields: &[String],
) -> Result<String, AllocError> {
    match group {
        "limits with another number" => numbers::limit(alloc, fields),
        "meters" => numbers::meter(alloc, fields),
        "shelves in memory, whose second call fails" => shelves::memory(alloc, fields),
        "shelves of files" => shelves::files(rt, alloc, fields),
        "sources" => sources::source(alloc, fields),
        "sinks" => sinks::sink(alloc, fields),
        _ => String::from_str(alloc, "no such group"),
    }
}

fn main(rt: HostRuntime) -> anyhow::Result<()> {
    run(rt, &Units { rt })
}
