//! Energies.

ghost use Rattle.std.specs.Prelude.{◌≡◌, MatchOption};
ghost use Rattle.quantity.specs.Quantities.{power_of, Held};

use crate::minutes::{HOUR, Minutes};
use crate::power::Power;
use crate::rounding::{round_wide, scaled};

/// An energy in units of 10^-10 MWh.
#[derive(Clone, Copy, PartialEq, Eq, PartialOrd, Ord, Default, Debug)]
pub struct Energy {
    units: i64,
}

impl Energy {
    pub fn from_units(units: i64) -> Energy
        ensures { result ≡ record { units = units } }
    {
        Energy { units }
    }

    pub fn units(self) -> i64
        ensures { result ≡ self.units }
    {
        self.units
    }

    /// The power that gives this energy within a time, or none where 64 bits do not hold it.
    pub fn spread_over(self, time: Minutes) -> Option<Power>
        ensures { MatchOption result (Held (power_of self time.number).units → ⊥) (λ p. p ≡ power_of self time.number) }
    {
        let wide = round_wide(scaled(self.units, HOUR), time.number());
        Some(Power::from_units(i64::try_from(wide).ok()?))
    }
}
