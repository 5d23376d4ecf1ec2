//! The figures of a report, each within its limits.

ghost use Rattle.std.specs.Prelude.{◌^◌, pos, neg_ℤ};

use quantity::{Energy, Limited, Limits, POWER_LIMIT, Power};

/// The largest FCR energy of a group in a minute, in either direction: 100 MWh.
pub const ENERGY_LIMIT: i64 = 1_000_000_000_000;

/// The reserve that a group offers: 0 to 10,000 MW.
// Limits of its own, though a sum of bids has the same: one type would let the one pass for the other.
pub(crate) type Offer = Limited<Power, OfferLimits>;

/// A measured power or a baseline: at most 10,000 MW in either direction.
pub(crate) type GroupPower = Limited<Power, GroupPowerLimits>;

/// The energy that a group gives for FCR in a minute: at most 100 MWh in either direction.
pub(crate) type FcrEnergy = Limited<Energy, FcrEnergyLimits>;

#[derive(Clone, Copy)]
pub struct OfferLimits;

#[derive(Clone, Copy)]
pub struct GroupPowerLimits;

#[derive(Clone, Copy)]
pub struct FcrEnergyLimits;

impl Limits for OfferLimits {
    ghost LOW = { pos 0 };

    ghost HIGH = { pos (10 ^ 14) };

    const LOW: i64 = 0;

    const HIGH: i64 = POWER_LIMIT;
}

impl Limits for GroupPowerLimits {
    ghost LOW = { neg_ℤ (pos (10 ^ 14)) };

    ghost HIGH = { pos (10 ^ 14) };

    const LOW: i64 = -POWER_LIMIT;

    const HIGH: i64 = POWER_LIMIT;
}

impl Limits for FcrEnergyLimits {
    ghost LOW = { neg_ℤ (pos (10 ^ 12)) };

    ghost HIGH = { pos (10 ^ 12) };

    const LOW: i64 = -ENERGY_LIMIT;

    const HIGH: i64 = ENERGY_LIMIT;
}
