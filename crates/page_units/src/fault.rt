//! What ends a call before its end.
pub use byte_ports::NoMemory;
use std::alloc::AllocError;
use thiserror::Error;

/// What ends a run of page code before its end.
#[derive(Drop, Clone, Debug, PartialEq, Eq, Error)]
pub enum RunFault {
    /// A step more than the bound of the task.
    #[error("a task took more steps than its bound")]
    Steps,
    /// A weight more than the heap's limit.
    #[error("the page is heavier than its bound")]
    Weight,
    /// An evaluation deeper than the bound.
    #[error("an evaluation went deeper than its bound")]
    Depth,
    /// Memory was refused.
    #[error("out of memory")]
    NoMemory,
}

impl From<AllocError> for RunFault {
    ghost use Rattle.std.specs.Prelude.{◌≡◌};
    ghost use Rattle.page_units.specs.declared.fault.RunFault.TheVariants.{NoMemory};

    ghost from_gives = { λ _ fault. fault ≡ NoMemory };

    fn from(_: AllocError) -> RunFault {
        RunFault::NoMemory
    }
}

/// The bound at which a command stopped.
#[derive(Clone, Copy, Debug, PartialEq, Eq)]
pub enum Stopped {
    /// The steps of a task.
    Steps,
    /// The weight that the heap may spend.
    Weight,
    /// How deep an evaluation may go.
    Depth,
    /// The page requests of a command.
    Requests,
    /// The timer firings of a tick.
    Timers,
}
