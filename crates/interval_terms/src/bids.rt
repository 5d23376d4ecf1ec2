//! Accepted bids.

ghost use Rattle.std.specs.Prelude.{◌≡◌, ◌^◌, true, false, pos, ◌≤ℤ◌, MatchOption};
ghost use Rattle.quantity.specs.Series.{total as total_of};
ghost use Rattle.interval_terms.specs.Terms.{each_bid, bids_within};

use bands::BidSum;
use quantity::{POWER_LIMIT, Power, all_within, total};

/// The most aFRR bids of a pool that are accepted in one direction.
pub const MOST_BIDS: usize = 32;

/// What the accepted bids of a direction come to, in units of 10^-10 MW. None where there are more than 32, one is not
/// above zero, or one or all of them lie above 10,000 MW.
pub fn sum_of_bids(bids: &[i64]) -> Option<BidSum>
    ensures { MatchOption result (bids_within bids.now ≡ false) (λ sum. (bids_within bids.now ≡ true) × (sum.quantity.units ≡ total_of bids.now)) }
{
    if !are_bids(bids) {
        return None;
    }
    BidSum::new(sum(bids))
}

/// Whether there are no more bids than are accepted, and each is above zero and within the limit.
fn are_bids(bids: &[i64]) -> bool
    ensures { result ≡ each_bid bids.now }
{
    bids.len() <= MOST_BIDS && all_within(bids, 1, POWER_LIMIT)
}

/// What the bids come to.
fn sum(bids: &[i64]) -> Power
    requires { each_bid bids.now ≡ true }
    ensures value { result.units ≡ total_of bids.now }
    ensures some { pos 0 ≤ℤ result.units }
{
    Power::from_units(total(bids) as i64)
}
