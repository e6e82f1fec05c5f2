//! Nodes over any heap of cells: elements by their id, and, handed on from the crates below, the
//! text of trees and the names of elements that have a rule of their own.
#![tactic(auto)]

pub mod ids;

pub use ids::{Found, element_by_id};
pub use tree_shape::{is_raw, is_void};
pub use tree_writer::dom_text;
