//! The heap of a page. What stands in it, and what a contract sees of it, is `cell_places`, which
//! is handed on here.
#![tactic(auto)]

pub mod base;
mod start;
mod tables;

pub use base::Base;
pub use cell_places::{
    Answer, CellFault, CellKind, CellNames, Cells, FaultName, Guess, Guesses, Listener, Listeners,
    Place, Slot, Texts, Timer, Timers,
};
