//! Why an evaluation stops before its end.
use cell_places::CellFault;
use page_units::{RunFault, Value};
use std::alloc::AllocError;

/// Why an evaluation stops before its end.
#[derive(Drop)]
pub enum Stop {
    /// It threw this value, which a `catch` gets (ECMA-262 5.1, 8.9).
    Throw(Value),
    /// It met a bound or was out of memory, and nothing catches that (this project's own).
    Fault(RunFault),
}

impl From<AllocError> for Stop {
    ghost use Rattle.std.specs.Prelude.{◌≡◌};
    ghost use Rattle.js_rules.specs.declared.stop.Stop.TheVariants.{Fault};
    ghost use Rattle.page_units.specs.declared.fault.RunFault.TheVariants.{NoMemory};

    ghost from_gives = { λ _ e. e ≡ Fault NoMemory };

    fn from(_e: AllocError) -> Stop {
        Stop::Fault(RunFault::NoMemory)
    }
}

impl From<CellFault> for Stop {
    ghost use Rattle.std.specs.Prelude.{◌≡◌};
    ghost use Rattle.js_rules.specs.declared.stop.Stop.TheVariants.{Fault};
    ghost use Rattle.page_units.specs.declared.fault.RunFault.TheVariants.{Weight};

    ghost from_gives = { λ _ e. e ≡ Fault Weight };

    fn from(_e: CellFault) -> Stop {
        Stop::Fault(RunFault::Weight)
    }
}
