//! The ceiling.

ghost use Rattle.std.specs.Prelude.{◌≡◌, ◌*◌, ◌^◌, ◌≤◌, Some, None, MatchOption, unsigned_abs};
ghost use Rattle.std.proofs.Common.{rules};

use bands::{BandEnd, BandRule};
use quantity::Power;

/// A band up to a high end, with no low end.
#[derive(Clone, Copy)]
pub struct Ceiling {
    high: BandEnd,
}

impl Ceiling {
    /// None where no band may have this end.
    pub fn new(high: Power) -> Option<Ceiling>
        ensures { MatchOption result (unsigned_abs high.units ≤ 2 * 10 ^ 15 → ⊥) (λ ceiling. ceiling.high.quantity ≡ high) }
    {
        Some(Ceiling {
            high: BandEnd::new(high)?,
        })
    }
}

impl BandRule for Ceiling {
    ghost lowest = { λ _. None };

    ghost highest = { λ ceiling. Some ceiling.high.quantity.units };

    ghost ordered = { Prim.search rules };

    ghost low_limited = { Prim.search rules };

    ghost high_limited = { Prim.search rules };

    fn low(&self) -> Option<BandEnd> {
        None
    }

    fn high(&self) -> Option<BandEnd> {
        Some(self.high)
    }
}
