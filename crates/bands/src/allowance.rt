//! Allowances.

ghost use Rattle.std.specs.Prelude.{◌≡◌, ◌^◌, pos, ◌≤ℤ◌};
ghost use Rattle.bands.specs.Tolerances.{allowance_of};

use crate::bid_sum::BidSum;
use quantity::{Divisor, Power};

/// How far realised power may stray beyond the requests of the window.
// Not a `Limited` power: two sums of bids give it, so its `new` would have no use, and `of_bids` no place as a method.
#[derive(Clone, Copy)]
pub struct Allowance {
    power: Power,
    ghost some: { pos 0 ≤ℤ power.units },
    ghost limit: { power.units ≤ℤ pos (10 ^ 13) },
}

impl Allowance {
    /// A tenth of the larger of the two sums of bids.
    pub fn of_bids(upward: BidSum, downward: BidSum) -> Allowance
        ensures { result.power ≡ allowance_of upward.quantity downward.quantity }
    {
        let larger = upward.quantity().max(downward.quantity());
        Allowance {
            power: larger.part(Divisor::TEN),
        }
    }

    pub fn power(self) -> Power
        ensures value { result ≡ self.power }
        ensures some { pos 0 ≤ℤ result.units }
        ensures limit { result.units ≤ℤ pos (10 ^ 13) }
    {
        self.power
    }
}
