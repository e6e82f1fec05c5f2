//! What page code does: the tasks that may be evaluated, a rule for each, and the relation between
//! the worlds before and after (ECMA-262 5.1, WHATWG DOM, and this project's own). It has
//! definitions (`specs/`), the types that they share with the evaluator, and no evaluator.
#![tactic(auto)]

pub mod built_in;
pub mod flow;
pub mod frame;
pub mod laws;
pub mod node;
pub mod stop;

pub use built_in::BuiltIn;
pub use flow::Flow;
pub use frame::Frame;
pub use node::{node_steps, refused_node};
pub use stop::Stop;
