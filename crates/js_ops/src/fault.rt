//! Why an operator gives no value.
use std::alloc::AllocError;

/// Why an operator gives no value.
#[derive(Clone, Debug, Drop, PartialEq, Eq)]
pub enum OpFault {
    /// An operand or the result is no whole number in range: a RangeError `not whole`.
    NotWhole,
    /// The text would have more than 65,535 UTF-16 units: a RangeError `too long`.
    TooLong,
    /// The steps of joining or comparing texts pass the meter's bound.
    Steps,
    /// Memory was refused.
    NoMemory,
}

impl From<AllocError> for OpFault {
    ghost use Rattle.std.specs.Prelude.{◌≡◌};
    ghost use Rattle.js_ops.specs.declared.fault.OpFault.TheVariants.{NoMemory};

    ghost from_gives = { λ _ fault. fault ≡ NoMemory };

    fn from(_: AllocError) -> OpFault {
        OpFault::NoMemory
    }
}
