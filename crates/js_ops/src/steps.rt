//! The steps of joining and comparing texts.
ghost use Rattle.std.specs.Prelude.{◌≡◌, ◌+◌, ◌/◌, ◌<◌, ◌≤◌, length, MatchResult};
ghost use Rattle.page_units.specs.Metered.{ticked};
ghost use Rattle.js_ops.specs.Operators.{comparing};
ghost use Rattle.js_ops.specs.declared.fault.OpFault.TheVariants.{Steps};

use crate::fault::OpFault;
use page_units::{Meter, Text};

/// How many units of texts a step joins or compares.
pub const UNITS_A_STEP: usize = 16;

/// Counts these steps, or answers Steps where they pass the bound and leaves the meter as it was.
pub(crate) fn count_steps(meter: &mut Meter, steps: u64) -> Result<(), OpFault>
    ensures { MatchResult result
        (λ _. (meter.old.used + steps ≤ meter.old.bound) × (meter.new ≡ ticked steps meter.old))
        (λ fault. (fault ≡ Steps) × (meter.old.bound < meter.old.used + steps) × (meter.new ≡ meter.old)) }
{
    if meter.tick(steps) {
        Ok(())
    } else {
        Err(OpFault::Steps)
    }
}

/// The steps of comparing two texts: those of the shorter one's units.
pub(crate) fn steps_of_comparing(x: &Text, y: &Text) -> u64
    ensures { result ≡ comparing x.now y.now }
{
    (x.len().min(y.len()) / UNITS_A_STEP) as u64
}
