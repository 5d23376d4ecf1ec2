//! Band rules: what a figure is judged by.

ghost use Rattle.std.specs.Prelude.{◌≡◌, ℤ, Option, option_map};
ghost use Rattle.bands.specs.Ends.{Ordered, EndLimited};

use crate::band_end::BandEnd;

/// A band with a low end or none and a high end or none. Asking for an end alters nothing.
pub trait BandRule {
    /// The units of the low end.
    ghost lowest: { Self → Option ℤ };

    /// The units of the high end.
    ghost highest: { Self → Option ℤ };

    fn low(&self) -> Option<BandEnd>
        ensures { option_map (λ end. end.quantity.units) result ≡ lowest self.now };

    fn high(&self) -> Option<BandEnd>
        ensures { option_map (λ end. end.quantity.units) result ≡ highest self.now };

    ghost ordered: { (rule : Self) → Ordered (lowest rule) (highest rule) };

    ghost low_limited: { (rule : Self) → EndLimited (lowest rule) };

    ghost high_limited: { (rule : Self) → EndLimited (highest rule) };
}
