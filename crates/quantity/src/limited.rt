//! Quantities within limits.

ghost use Rattle.std.specs.Prelude.{◌≡◌, ℤ, ◌≤ℤ◌, MatchOption, ⊤};
ghost use Rattle.quantity.specs.Quantities.{Held};

use crate::energy::Energy;
use crate::power::Power;
use crate::series::is_within;
use std::alloc::AllocError;
use std::marker::PhantomData;

/// A quantity that may have limits.
pub trait Quantity: Copy {
    /// Its units.
    ghost units_of: { Self → ℤ };

    fn in_units(self) -> i64
        ensures { result ≡ units_of self };
}

impl Quantity for Power {
    ghost units_of = { λ power. power.units };

    fn in_units(self) -> i64 {
        Power::units(self)
    }
}

impl Quantity for Energy {
    ghost units_of = { λ energy. energy.units };

    fn in_units(self) -> i64 {
        Energy::units(self)
    }
}

/// The limits of a quantity, in units. A type for each kind, so that two kinds with the same limits are not one type.
pub trait Limits: Copy {
    ghost LOW: { ℤ };

    ghost HIGH: { ℤ };

    const LOW: i64;

    const HIGH: i64;
}

/// A quantity from the lower of its limits to the higher, both included.
#[derive(Copy)]
pub struct Limited<Q: Quantity, L: Limits> {
    pub(crate) quantity: Q,
    limits: PhantomData<L>,
    ghost low: { L.LOW ≤ℤ Q.units_of quantity },
    ghost high: { Q.units_of quantity ≤ℤ L.HIGH },
}

// By hand: no derive clones a ghost field of a struct with type parameters.
impl<Q: Quantity, L: Limits> Clone for Limited<Q, L> {
    ghost is_clone = { λ x y. y ≡ x };

    ghost is_infallible = { λ _. ⊤ };

    fn clone(&self) -> Result<Limited<Q, L>, AllocError> {
        Ok(*self)
    }
}

impl<Q: Quantity, L: Limits> Limited<Q, L> {
    /// None where the quantity lies outside its limits.
    pub fn new(quantity: Q) -> Option<Limited<Q, L>>
        ensures value { MatchOption result (L.LOW ≤ℤ Q.units_of quantity → Q.units_of quantity ≤ℤ L.HIGH → ⊥) (λ l. l.quantity ≡ quantity) }
        ensures held { Held (Q.units_of quantity) }
    {
        if !is_within(quantity.in_units(), L::LOW, L::HIGH) {
            return None;
        }
        Some(Limited {
            quantity,
            limits: PhantomData,
        })
    }

    pub fn quantity(self) -> Q
        ensures value { result ≡ self.quantity }
        ensures low { L.LOW ≤ℤ Q.units_of result }
        ensures high { Q.units_of result ≤ℤ L.HIGH }
    {
        self.quantity
    }
}
