//! What the rules of scripts put together: operands, statements and bodies with the levels that they take, the classes of
//! their tokens and their operators (ECMA-262 5.1, sections 11 to 14).
#![tactic(auto)]

pub mod classes;
pub mod codes;
pub mod context;
pub mod depth;
pub mod fault;
pub mod keyed;
pub mod names;
pub mod nodes;
pub mod operand;
pub mod operators;
pub mod series;

pub use context::{After, Closer, Context, Inside};
pub use depth::{Depth, NOTHING};
pub use fault::{Fault, ParseError};
pub use keyed::KeyedEntries;
pub use names::Names;
pub use operand::{Coded, Entries, Operand, Part, Row, node, unboxed};
pub use series::{Body, Cases, Decls, Said, Series, State, stmt_node};
