//! Places of cells, what stands there, and what a contract sees of the cells that hold it: a heap,
//! the acts on it, and which heaps are valid and sound. Nothing here says how a heap is kept.
#![tactic(auto)]

pub mod answer;
pub mod cells;
pub mod kind;
pub mod known;
pub mod place;

pub use answer::{Answer, CellNames, Guess, Guesses, Listener, Listeners, Texts, Timer, Timers};
pub use cells::{CellFault, Cells};
pub use kind::{CellKind, FaultName};
pub use known::{
    BOOLEAN_PROTOTYPE, CONSOLE, CROM, DOCUMENT, ERROR_PROTOTYPE, EVENT_PROTOTYPE, FIRST_NATIVE,
    FUNCTION_PROTOTYPE, GLOBAL_SCOPE, JSON, LIST_PROTOTYPE, MATH, NATIVE_COUNT, NET,
    NODE_PROTOTYPE, NUMBER_PROTOTYPE, OBJECT_PROTOTYPE, PAGE, RANGE_ERROR_PROTOTYPE,
    REFERENCE_ERROR_PROTOTYPE, RESERVE_COUNT, STRING_PROTOTYPE, SYNTAX_ERROR_PROTOTYPE,
    TYPE_ERROR_PROTOTYPE, function_cell,
};
pub use place::{Place, Slot};
