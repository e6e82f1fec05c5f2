//! Pages with their trees and their scripts, and what is no page with the rule and the place, worked out by hand from the
//! page form: the rows of `page_reader`. What a group's name says before its first `:` tells what is told of its pages.
#![tactic(auto)]

mod outline;

use page_reader::{PageFault, read_tree};
use row_files::{Answers, bytes_of, kind_of, run};
use std::alloc::{AllocError, Global};

struct Pages;

impl Answers for Pages {
    fn answer(&self, alloc: Global, group: &str, fields: &[String]) -> Result<String, AllocError> {
        let page = bytes_of(alloc, fields, 0)?;
        match kind_of(group) {
            "trees" => told_tree(alloc, page.as_slice()),
            "scripts" => told_scripts(alloc, page.as_slice()),
            "faults" => told_fault(alloc, page.as_slice()),
            _ => String::from_str(alloc, "no such group"),
        }
    }
}

/// The page's outline.
fn told_tree(alloc: Global, page: &[u8]) -> Result<String, AllocError> {
    match read_tree(alloc, page) {
        Ok(tree) => outline::outline(alloc, &tree.root),
        Err(fault) => told_refusal(alloc, fault),
    }
}

/// The number and the slice of each script.
fn told_scripts(alloc: Global, page: &[u8]) -> Result<String, AllocError> {
    match read_tree(alloc, page) {
        Ok(tree) => outline::scripts(alloc, tree.scripts.as_slice()),
        Err(fault) => told_refusal(alloc, fault),
    }
}

/// The rule that is broken and where, or `a page` where none is.
fn told_fault(alloc: Global, page: &[u8]) -> Result<String, AllocError> {
    match read_tree(alloc, page) {
        Ok(_) => String::from_str(alloc, "a page"),
        Err(fault) => told_refusal(alloc, fault),
    }
}

fn told_refusal(alloc: Global, fault: PageFault) -> Result<String, AllocError> {
    match fault {
        PageFault::Rule(rule, at) => format!(in alloc; "rule {rule} at {at}"),
        PageFault::NoMemory => Err(AllocError),
    }
}

fn main(rt: HostRuntime) -> anyhow::Result<()> {
    run(rt, &Pages)
}
