//! Pages and requests with what `run` writes and how it ends, over objects in memory, and with what the host replies
//! within other limits: the tests of `crom_commands` and `crom_host`. The rows stand in `data/rows.json`.
#![tactic(auto)]

mod hosting;
mod running;
mod telling;

use crate::hosting::{replied_within, served_within};
use crate::running::{Run, behind_many, read_in_bytes, told_of_each_cut};
use row_files::{Answers, field, number, run};
use std::alloc::{AllocError, Global};

struct Runs;

impl Answers for Runs {
    fn answer(&self, alloc: Global, group: &str, fields: &[String]) -> Result<String, AllocError> {
        match group {
            "words" => Run::new(fields).told(alloc),
            "served" => served(alloc, fields),
            "checked" => checked(alloc, fields),
            "failing" => failing(alloc, fields),
            "read in bytes" => read_in_bytes(alloc, number(fields, 0)),
            "bound" => behind_many(alloc, field(fields, 0)),
            "replied within" => within_a_text(alloc, fields),
            "served within" => within_both(alloc, fields),
            _ => String::from_str(alloc, "no such group"),
        }
    }
}

fn main(rt: HostRuntime) -> anyhow::Result<()> {
    run(rt, &Runs)
}

/// A page and the requests, which come whole and cut at each byte.
fn served(alloc: Global, fields: &[String]) -> Result<String, AllocError> {
    told_of_each_cut(alloc, field(fields, 0), field(fields, 1))
}

/// A page whose scripts are checked.
fn checked(alloc: Global, fields: &[String]) -> Result<String, AllocError> {
    let words = words_of(alloc, "check", "p")?;
    Run {
        page: field(fields, 0),
        input: "",
        ..Run::new(words.as_slice())
    }
    .told(alloc)
}

/// A command, the page that is asked for, and which call of shelf, input and output fails, from 1.
fn failing(alloc: Global, fields: &[String]) -> Result<String, AllocError> {
    let words = words_of(alloc, field(fields, 0), field(fields, 1))?;
    Run {
        fails: [number(fields, 2), number(fields, 3), number(fields, 4)],
        ..Run::new(words.as_slice())
    }
    .told(alloc)
}

/// A page and a bound of a tree text.
fn within_a_text(alloc: Global, fields: &[String]) -> Result<String, AllocError> {
    replied_within(alloc, field(fields, 0), number(fields, 1))
}

/// A page, the requests, and the bounds of a tree text and of the requests.
fn within_both(alloc: Global, fields: &[String]) -> Result<String, AllocError> {
    let (page, input) = (field(fields, 0), field(fields, 1));
    served_within(alloc, page, input, number(fields, 2), number(fields, 3))
}

fn words_of(alloc: Global, command: &str, page: &str) -> Result<Vec<String>, AllocError> {
    let command = String::from_str(alloc, command)?;
    Ok(vec![in alloc; command, String::from_str(alloc, page)?]?)
}
