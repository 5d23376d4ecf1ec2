//! Sums of bids.

ghost use Rattle.std.specs.Prelude.{◌^◌, pos};

use quantity::{Limited, Limits, POWER_LIMIT, Power};

/// What the accepted aFRR bids of a quarter hour and direction come to: 0 to 10,000 MW.
// Limits of its own, though a procured reserve has the same: one type would let the one pass for the other.
pub type BidSum = Limited<Power, BidLimits>;

/// Nothing, and 10,000 MW.
#[derive(Clone, Copy)]
pub struct BidLimits;

impl Limits for BidLimits {
    ghost LOW = { pos 0 };

    ghost HIGH = { pos (10 ^ 14) };

    const LOW: i64 = 0;

    const HIGH: i64 = POWER_LIMIT;
}
