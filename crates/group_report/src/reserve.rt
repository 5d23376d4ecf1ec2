//! Prequalified reserves.

ghost use Rattle.std.specs.Prelude.{◌^◌, pos};

use quantity::{Limited, Limits, POWER_LIMIT, Power};

/// The FCR reserve for which a group is prequalified: one unit to 10,000 MW.
pub type PrequalifiedReserve = Limited<Power, PrequalifiedLimits>;

/// One unit, and 10,000 MW.
#[derive(Clone, Copy)]
pub struct PrequalifiedLimits;

impl Limits for PrequalifiedLimits {
    ghost LOW = { pos 1 };

    ghost HIGH = { pos (10 ^ 14) };

    const LOW: i64 = 1;

    const HIGH: i64 = POWER_LIMIT;
}
