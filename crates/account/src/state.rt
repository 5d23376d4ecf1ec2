//! What an account holds.

ghost use Rattle.std.specs.Prelude.{◌≡◌, ◌*◌, ◌^◌, ◌≤◌, List, pos, ◌≤ℤ◌};
ghost use Rattle.account.specs.Changes.{Judged, LeastChange};
ghost use Rattle.account.specs.Accounts.{Holds};

use bands::BandRule;
use quantity::Power;

/// A deviation account: one band rule, of whichever kind, and the total of up to fifteen distances.
#[derive(Drop)]
pub struct Account<R: BandRule> {
    pub(crate) rule: R,
    pub(crate) total: Power,
    pub(crate) count: u8,
    ghost some: { pos 0 ≤ℤ total.units },
    ghost limit: { total.units ≤ℤ pos (13 * 10 ^ 15 * count) },
    ghost full: { count ≤ 15 },
}

impl<R: BandRule> Account<R> {
    /// The total of the distances.
    pub fn total(&self) -> Power
        ensures value { result ≡ self.now.total }
        ensures least { (js : List Judged) → Holds js self.now.total.units self.now.count → LeastChange js result.units }
    {
        self.total
    }
}
