//! Activated energies.

ghost use Rattle.std.specs.Prelude.{pos};

use crate::energy::Energy;
use crate::limited::{Limited, Limits};

/// The size of an activated energy: 0 to 2,500 MWh, the most that a quarter hour can activate.
pub type ActivatedEnergy = Limited<Energy, ActivationLimits>;

/// Nothing, and 10,000 MW throughout a quarter hour.
#[derive(Clone, Copy)]
pub struct ActivationLimits;

impl Limits for ActivationLimits {
    ghost LOW = { pos 0 };

    ghost HIGH = { pos 25000000000000 };

    const LOW: i64 = 0;

    const HIGH: i64 = 25_000_000_000_000;
}
