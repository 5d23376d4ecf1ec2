//! Durations.

use crate::up_to::UpTo;

/// The minutes of an hour, in which 1 MW gives 1 MWh. No duration is longer, so an energy has no more units than its power.
pub(crate) const HOUR: u64 = 60;

/// A duration of one minute to an hour.
pub type Minutes = UpTo<60>;

impl UpTo<60> {
    /// The minute, over which powers are averaged.
    pub const ONE: Minutes = UpTo { number: 1 };
}
