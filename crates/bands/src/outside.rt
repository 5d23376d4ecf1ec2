//! How far a figure lies outside a band.

ghost use Rattle.std.specs.Prelude.{◌≡◌, ◌+◌, ◌*◌, ◌^◌, ◌≤◌, pos, ◌-ℤ◌, IfOk, unsigned_abs};
ghost use Rattle.quantity.specs.Refusals.{Answers};
ghost use Rattle.bands.specs.Ends.{distance_of, distance_refusal};

use crate::rule::BandRule;
use quantity::{Power, Refusal, is_within};

/// The largest figure that is measured against a band: 1,100,000 MW, more than any pool's groups can come to.
pub const FIGURE_LIMIT: i64 = 11_000_000_000_000_000;

/// How far a figure lies outside a band, or zero. Refuses a figure beyond its limit (11).
pub fn distance<R: BandRule>(rule: &R, figure: Power) -> Result<Power, Refusal>
    ensures value { Answers (distance_refusal figure.units) (λ d. d.units ≡ pos (distance_of (R.lowest rule.now) (R.highest rule.now) figure.units)) result }
    ensures bound { IfOk result (λ d. unsigned_abs d.units ≤ 13 * 10 ^ 15) }
{
    if !is_within(figure.units(), -FIGURE_LIMIT, FIGURE_LIMIT) {
        return Err(Refusal::OutOfRange);
    }
    Ok(gap(rule, figure))
}

/// How far a figure within its limit lies outside a band.
pub(crate) fn gap<R: BandRule>(rule: &R, figure: Power) -> Power
    requires { unsigned_abs figure.units ≤ 11 * 10 ^ 15 }
    ensures value { result.units ≡ pos (distance_of (R.lowest rule.now) (R.highest rule.now) figure.units) }
    ensures bound { unsigned_abs result.units ≤ 13 * 10 ^ 15 }
{
    if let Some(low) = rule.low() {
        let low = low.quantity();
        if figure < low {
            return Power::from_units(low.units() - figure.units());
        }
    }
    if let Some(high) = rule.high() {
        let high = high.quantity();
        if high < figure {
            return Power::from_units(figure.units() - high.units());
        }
    }
    Power::from_units(0)
}
