//! The floor of offered reserve.

ghost use Rattle.std.specs.Prelude.{◌≡◌, ◌*◌, ◌^◌, ◌≤◌, Some, None, MatchOption, unsigned_abs};
ghost use Rattle.std.proofs.Common.{rules};

use crate::band_end::BandEnd;
use crate::rule::BandRule;
use quantity::Power;

/// A band from a low end up, with no high end: the procured reserve, which the offered reserve has to reach.
#[derive(Clone, Copy)]
pub struct Floor {
    low: BandEnd,
}

impl Floor {
    /// None where no band may have this end.
    pub fn new(low: Power) -> Option<Floor>
        ensures { MatchOption result (unsigned_abs low.units ≤ 2 * 10 ^ 15 → ⊥) (λ floor. floor.low.quantity ≡ low) }
    {
        Some(Floor {
            low: BandEnd::new(low)?,
        })
    }
}

impl BandRule for Floor {
    ghost lowest = { λ floor. Some floor.low.quantity.units };

    ghost highest = { λ _. None };

    ghost ordered = { Prim.search rules };

    ghost low_limited = { Prim.search rules };

    ghost high_limited = { Prim.search rules };

    fn low(&self) -> Option<BandEnd> {
        Some(self.low)
    }

    fn high(&self) -> Option<BandEnd> {
        None
    }
}
