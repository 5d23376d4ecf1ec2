//! Powers.

ghost use Rattle.std.specs.Prelude.{◌≡◌, ◌≤◌, pos, ◌+ℤ◌, ◌-ℤ◌, ◌*ℤ◌, MatchOption};
ghost use Rattle.quantity.specs.Rounding.{rounded};
ghost use Rattle.quantity.specs.Quantities.{energy_of, part_of, Held};

use crate::divisor::Divisor;
use crate::energy::Energy;
use crate::minutes::{HOUR, Minutes};
use crate::rounding::{round_quotient, round_wide, scaled};

/// The largest power that any call takes: 10,000 MW.
pub const POWER_LIMIT: i64 = 100_000_000_000_000;

/// A power in units of 10^-10 MW.
// Power, energy and share are structs of their own by a rule of the project: only a duration joins power and energy.
#[derive(Clone, Copy, PartialEq, Eq, PartialOrd, Ord, Default, Debug)]
pub struct Power {
    units: i64,
}

/// The units of a power for so many minutes of an hour.
fn hourly(units: i64, minutes: u64) -> i64
    requires { minutes ≤ 60 }
    ensures { result ≡ rounded (units *ℤ pos minutes) 60 }
{
    let wide = round_wide(scaled(units, minutes), HOUR);
    wide as i64
}

impl Power {
    pub fn from_units(units: i64) -> Power
        ensures { result ≡ record { units = units } }
    {
        Power { units }
    }

    pub fn units(self) -> i64
        ensures { result ≡ self.units }
    {
        self.units
    }

    /// This power and another, or none where 64 bits do not hold it.
    pub fn checked_add(self, other: Power) -> Option<Power>
        ensures { MatchOption result (Held (self.units +ℤ other.units) → ⊥) (λ p. p.units ≡ self.units +ℤ other.units) }
    {
        Some(Power::from_units(self.units.checked_add(other.units)?))
    }

    /// This power less another, or none where 64 bits do not hold it.
    pub fn checked_sub(self, other: Power) -> Option<Power>
        ensures { MatchOption result (Held (self.units -ℤ other.units) → ⊥) (λ p. p.units ≡ self.units -ℤ other.units) }
    {
        Some(Power::from_units(self.units.checked_sub(other.units)?))
    }

    /// The energy of this power, when it lasts so long.
    pub fn lasting(self, time: Minutes) -> Energy
        ensures { result ≡ energy_of self time.number }
    {
        Energy::from_units(hourly(self.units, time.number()))
    }

    /// One of so many equal parts.
    pub fn part(self, parts: Divisor) -> Power
        ensures { result ≡ part_of self parts.number }
    {
        Power::from_units(round_quotient(self.units, parts))
    }
}
