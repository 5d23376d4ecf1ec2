//! The terms of a quarter hour.

ghost use Rattle.std.specs.Prelude.{◌≡◌};
ghost use Rattle.quantity.specs.Refusals.{Answers};
ghost use Rattle.bands.specs.Tolerances.{allowance_of};
ghost use Rattle.interval_terms.specs.Terms.{terms_refusal};
ghost use Rattle.interval_terms.specs.Held.{Holds};

use crate::activated::{downward_energy, upward_energy};
use crate::bids::sum_of_bids;
use crate::procured::ProcuredReserve;
use bands::{Allowance, BidSum, Floor};
use quantity::{ActivatedEnergy, Energy, Power, Refusal};

/// The terms of a quarter hour, each within its limits.
#[derive(Clone, Copy)]
pub struct IntervalTerms {
    /// The FCR reserve that was procured.
    procured: ProcuredReserve,
    /// What the upward aFRR bids come to.
    upward: BidSum,
    /// What the downward aFRR bids come to.
    downward: BidSum,
    /// The size of the energy that was activated upward.
    raised: ActivatedEnergy,
    /// The size of the energy that was activated downward.
    lowered: ActivatedEnergy,
}

impl IntervalTerms {
    /// The terms of a quarter hour, from the procured reserve, the bids of both directions in units of 10^-10 MW, and the
    /// energies that were activated, upward above zero and downward below. Refuses terms outside their limits (7).
    pub fn new(
        procured: Power,
        upward: &[i64],
        downward: &[i64],
        raised: Energy,
        lowered: Energy,
    ) -> Result<IntervalTerms, Refusal>
        ensures { Answers (terms_refusal procured upward.now downward.now raised lowered) (λ t. Holds procured upward.now downward.now raised lowered t) result }
    {
        let refused = Refusal::TermsOutOfRange;
        Ok(IntervalTerms {
            procured: ProcuredReserve::new(procured).ok_or(refused)?,
            upward: sum_of_bids(upward).ok_or(refused)?,
            downward: sum_of_bids(downward).ok_or(refused)?,
            raised: upward_energy(raised).ok_or(refused)?,
            lowered: downward_energy(lowered).ok_or(refused)?,
        })
    }

    /// The FCR reserve that was procured.
    pub fn procured(self) -> ProcuredReserve
        ensures { result ≡ self.procured }
    {
        self.procured
    }

    /// What the upward bids come to.
    pub fn upward_bids(self) -> BidSum
        ensures { result ≡ self.upward }
    {
        self.upward
    }

    /// What the downward bids come to.
    pub fn downward_bids(self) -> BidSum
        ensures { result ≡ self.downward }
    {
        self.downward
    }

    /// The size of the energy that was activated upward.
    pub fn upward_activated(self) -> ActivatedEnergy
        ensures { result ≡ self.raised }
    {
        self.raised
    }

    /// The size of the energy that was activated downward.
    pub fn downward_activated(self) -> ActivatedEnergy
        ensures { result ≡ self.lowered }
    {
        self.lowered
    }

    /// The procured reserve as the floor under what the groups offer.
    pub fn floor(self) -> Floor
        ensures { result.low.quantity ≡ self.procured.quantity }
    {
        Floor::new(self.procured.quantity()).unwrap()
    }

    /// The allowance of the tolerance band, from the bids of both directions.
    pub fn allowance(self) -> Allowance
        ensures { result.power ≡ allowance_of self.upward.quantity self.downward.quantity }
    {
        Allowance::of_bids(self.upward, self.downward)
    }
}
