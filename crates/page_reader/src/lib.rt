//! Pages: from bytes to trees and scripts, and into a heap.
#![tactic(auto)]

mod attributes;
mod classes;
mod comments;
mod content;
mod fault;
mod named;
mod names;
mod node;
mod outside;
pub mod page;
mod plant;
mod raw;
mod reader;
mod references;
mod tags;
mod whole;

pub use fault::{PageFault, PageRule};
pub use node::{Attribute, Node};
pub use page::{PageParts, ScriptText, read_page};
pub use whole::{PageTree, read_tree};
