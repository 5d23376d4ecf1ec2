//! The opening of a statement.

use crate::day::Day;
use crate::day_length::DayLength;
use crate::group_count::GroupCount;

/// What a statement opens with: its day, how long that is, and how many groups the pool has.
#[derive(Clone, Copy)]
pub struct Opening {
    pub day: Day,
    pub length: DayLength,
    pub groups: GroupCount,
}
