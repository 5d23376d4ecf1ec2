//! The two orders of activation requests.

ghost use Rattle.std.specs.Prelude.{int_le};
ghost use Rattle.std.proofs.Common.{rules};

use crate::order::{Order, Reversed};
use activation::ActivationRequest;

/// The lowest request stands first.
pub struct LowestFirst;

/// The highest request stands first.
pub type HighestFirst = Reversed<LowestFirst>;

impl Order for LowestFirst {
    type Thing = ActivationRequest;

    ghost ahead = { λ x y. int_le x.power.units y.power.units };

    ghost either = { Prim.search rules };

    ghost chain = { Prim.search rules };

    fn is_no_later(thing: &ActivationRequest, other: &ActivationRequest) -> bool {
        thing.power() <= other.power()
    }
}
