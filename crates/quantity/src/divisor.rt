//! What a quotient is divided by.

use crate::up_to::UpTo;

/// A divisor: a whole number above zero.
pub type Divisor = UpTo<18446744073709551615>;

impl UpTo<18446744073709551615> {
    /// The samples of a minute in one direction, one each two seconds.
    pub const THIRTY: Divisor = UpTo { number: 30 };

    /// The part of the bids by which power may stray.
    pub const TEN: Divisor = UpTo { number: 10 };
}
