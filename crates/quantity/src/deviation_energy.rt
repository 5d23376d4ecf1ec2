//! Deviation energies, and their shares in what was activated.

ghost use Rattle.std.specs.Prelude.{◌≡◌, ◌+◌, ◌*◌, ◌^◌, ◌<◌, ◌≤◌, ◌-◌, pos};
ghost use Rattle.quantity.specs.Rounding.{nearest};
ghost use Rattle.quantity.specs.Quantities.{share_of};

use crate::activated_energy::ActivatedEnergy;
use crate::energy::Energy;
use crate::limited::{Limited, Limits};
use crate::rounding::round_division;
use crate::share::Share;

/// 100 % in units of 10^-10 percent.
const WHOLE: i64 = 1_000_000_000_000;

/// The decimal places of a share: two of 100 %, ten after the point.
const PLACES: usize = 12;

/// The size of a deviation energy: how much of it was delivered outside the band, never negative.
pub type DeviationEnergy = Limited<Energy, DeviationLimits>;

/// Nothing, and all that 64 bits hold.
#[derive(Clone, Copy)]
pub struct DeviationLimits;

impl Limits for DeviationLimits {
    ghost LOW = { pos 0 };

    ghost HIGH = { pos (2 ^ 63 - 1) };

    const LOW: i64 = 0;

    const HIGH: i64 = i64::MAX;
}

/// The digits of a quotient so far, and what is left to divide.
#[derive(Clone, Copy)]
struct Division {
    digits: u64,
    rest: u64,
}

/// A part that is less than the whole, which no activated energy exceeds.
#[derive(Clone, Copy)]
struct Portion {
    part: u64,
    whole: u64,
    ghost less: { part < whole },
    ghost limit: { whole ≤ 25000000000000 },
}

impl Portion {
    /// `part / whole` to so many decimal places, one digit after another: no product of the two sides is formed.
    fn divide(self, places: usize) -> Division
        requires { places ≤ 12 }
        ensures exact { self.part * 10 ^ places ≡ result.digits * self.whole + result.rest }
        ensures rest { result.rest < self.whole }
        ensures digits { result.digits < 10 ^ places }
    {
        let Portion { part, whole } = self;
        let mut rest = part;
        let mut digits: u64 = 0;
        for _place in 0..places {
            rest *= 10;
            digits = digits * 10 + rest / whole;
            rest %= whole;
        }
        Division { digits, rest }
    }

    /// The units of the share that the part is of the whole.
    fn share_units(self) -> u64
        ensures value { result ≡ nearest (self.part * 10 ^ 12) self.whole }
        ensures bound { result ≤ 10 ^ 12 }
    {
        let found = self.divide(PLACES);
        round_division(
            u128::from(found.digits),
            u128::from(found.rest),
            u128::from(self.whole),
        ) as u64
    }
}

impl Limited<Energy, DeviationLimits> {
    /// The share of this deviation in an activated energy.
    pub fn share_of(self, activated: ActivatedEnergy) -> Share
        ensures { result ≡ share_of self.quantity activated.quantity }
    {
        let part = self.quantity().units();
        let whole = activated.quantity().units();
        if whole == 0 {
            Share::from_units(0)
        } else if part >= whole {
            Share::from_units(WHOLE)
        } else {
            // Neither is negative, nor above 10^12 in the end: no `From` changes between signs.
            let portion = Portion {
                part: part as u64,
                whole: whole as u64,
            };
            Share::from_units(portion.share_units() as i64)
        }
    }
}
