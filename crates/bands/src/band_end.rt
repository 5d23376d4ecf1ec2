//! The ends of bands.

ghost use Rattle.std.specs.Prelude.{◌*◌, ◌^◌, pos, neg_ℤ};

use quantity::{Limited, Limits, Power};

/// An end of a band: at most 200,000 MW from zero.
pub type BandEnd = Limited<Power, EndLimits>;

/// 200,000 MW on both sides of zero.
#[derive(Clone, Copy)]
pub struct EndLimits;

impl Limits for EndLimits {
    ghost LOW = { neg_ℤ (pos (2 * 10 ^ 15)) };

    ghost HIGH = { pos (2 * 10 ^ 15) };

    const LOW: i64 = -2_000_000_000_000_000;

    const HIGH: i64 = 2_000_000_000_000_000;
}
