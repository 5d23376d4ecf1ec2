//! Orders: which of two things stands before the other.

ghost use Rattle.std.specs.Prelude.{◌≡◌, Bool, true, false};

use std::marker::PhantomData;

/// An order of things of one kind. Of two things one stands no later than the other, and this carries on through a third.
pub trait Order {
    type Thing;

    /// The first stands no later than the second.
    ghost ahead: { Self.Thing → Self.Thing → Bool };

    fn is_no_later(thing: &Self::Thing, other: &Self::Thing) -> bool
        ensures { result ≡ ahead thing.now other.now };

    ghost either: { (x y : Self.Thing) → ahead x y ≡ false → ahead y x ≡ true };

    ghost chain: { (x y z : Self.Thing) → ahead x y ≡ true → ahead y z ≡ true → ahead x z ≡ true };
}

/// An order turned round: what stands first in the one stands last in the other.
pub struct Reversed<O> {
    pub order: PhantomData<O>,
}

impl<O: Order> Order for Reversed<O> {
    type Thing = O::Thing;

    ghost ahead = { λ x y. O.ahead y x };

    ghost either = { λ x y. O.either y x };

    ghost chain = { λ x y z first second. O.chain z y x second first };

    fn is_no_later(thing: &O::Thing, other: &O::Thing) -> bool {
        O::is_no_later(other, thing)
    }
}
