//! The tolerance band of one minute.

ghost use Rattle.std.specs.Prelude.{◌≡◌, ℕ, length, ◌+ℤ◌, ◌-ℤ◌, ◌≤ℤ◌, Some, slice_index_or};
ghost use Rattle.bands.specs.Orders.{FirstForemost};
ghost use Rattle.bands.specs.Tolerances.{low_end, high_end};
ghost use Rattle.std.proofs.Common.{rules};

use crate::allowance::Allowance;
use crate::band_end::BandEnd;
use crate::order::Order;
use crate::request_orders::{HighestFirst, LowestFirst};
use crate::rule::BandRule;
use crate::search::first_foremost;
use activation::ActivationRequest;
use quantity::Power;

/// The requests of a window: this minute's and those of the six minutes before it.
pub const WINDOW: usize = 7;

/// A band from the lowest request of a window less the allowance to the highest and the allowance.
#[derive(Clone, Copy)]
pub struct ToleranceBand {
    low: BandEnd,
    high: BandEnd,
    ghost ordered: { low.quantity.units ≤ℤ high.quantity.units },
}

/// The foremost request of a window.
fn foremost_of<O: Order<Thing = ActivationRequest>>(
    window: &[ActivationRequest; WINDOW],
) -> ActivationRequest
    ensures { (place : ℕ) × FirstForemost O.ahead window.now place × (result ≡ slice_index_or window.now place result) }
{
    window[first_foremost::<O>(window).unwrap()]
}

/// A request less the allowance.
// Not one function with the upper end: they differ in what is done, which a closure would say no plainer.
fn lower_end(request: ActivationRequest, allowance: Allowance) -> BandEnd
    ensures { result.quantity.units ≡ request.power.units -ℤ allowance.power.units }
{
    let units = request.power().units() - allowance.power().units();
    BandEnd::new(Power::from_units(units)).unwrap()
}

/// A request and the allowance.
fn upper_end(request: ActivationRequest, allowance: Allowance) -> BandEnd
    ensures { result.quantity.units ≡ request.power.units +ℤ allowance.power.units }
{
    let units = request.power().units() + allowance.power().units();
    BandEnd::new(Power::from_units(units)).unwrap()
}

impl ToleranceBand {
    /// The band of a minute, from its window of requests, the minute's own among them.
    pub fn over(window: &[ActivationRequest; WINDOW], allowance: Allowance) -> ToleranceBand
        ensures seven { length window.now ≡ 7 }
        ensures low { result.low.quantity.units ≡ low_end window.now allowance.power }
        ensures high { result.high.quantity.units ≡ high_end window.now allowance.power }
    {
        let low = lower_end(foremost_of::<LowestFirst>(window), allowance);
        let high = upper_end(foremost_of::<HighestFirst>(window), allowance);
        ToleranceBand { low, high }
    }
}

impl BandRule for ToleranceBand {
    ghost lowest = { λ band. Some band.low.quantity.units };

    ghost highest = { λ band. Some band.high.quantity.units };

    ghost ordered = { Prim.search rules };

    ghost low_limited = { Prim.search rules };

    ghost high_limited = { Prim.search rules };

    fn low(&self) -> Option<BandEnd> {
        Some(self.low)
    }

    fn high(&self) -> Option<BandEnd> {
        Some(self.high)
    }
}
