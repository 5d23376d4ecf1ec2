//! Procured reserves.

ghost use Rattle.std.specs.Prelude.{◌^◌, pos};

use quantity::{Limited, Limits, POWER_LIMIT, Power};

/// The FCR reserve that was procured for a quarter hour: 0 to 10,000 MW.
// Limits of its own, though a sum of bids has the same: one type would let the one pass for the other.
pub type ProcuredReserve = Limited<Power, ProcuredLimits>;

/// Nothing, and 10,000 MW.
#[derive(Clone, Copy)]
pub struct ProcuredLimits;

impl Limits for ProcuredLimits {
    ghost LOW = { pos 0 };

    ghost HIGH = { pos (10 ^ 14) };

    const LOW: i64 = 0;

    const HIGH: i64 = POWER_LIMIT;
}
