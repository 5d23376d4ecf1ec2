//! Activated energies, held by their size.

ghost use Rattle.std.specs.Prelude.{◌≡◌, true, false, neg_ℤ, MatchOption};
ghost use Rattle.interval_terms.specs.Terms.{raised_within, lowered_within};

use quantity::{ActivatedEnergy, Energy};

/// The upward energy, which is not below zero.
pub(crate) fn upward_energy(energy: Energy) -> Option<ActivatedEnergy>
    ensures { MatchOption result (raised_within energy ≡ false) (λ a. (raised_within energy ≡ true) × (a.quantity.units ≡ energy.units)) }
{
    ActivatedEnergy::new(energy)
}

/// The downward energy, which is not above zero.
pub(crate) fn downward_energy(energy: Energy) -> Option<ActivatedEnergy>
    ensures { MatchOption result (lowered_within energy ≡ false) (λ a. (lowered_within energy ≡ true) × (a.quantity.units ≡ neg_ℤ energy.units)) }
{
    let size = energy.units().checked_neg()?;
    ActivatedEnergy::new(Energy::from_units(size))
}
