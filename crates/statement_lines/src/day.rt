//! The delivery day.

use quantity::UpTo;

/// The number of a delivery day: 1 to 999,999, the last that six columns hold.
pub type Day = UpTo<999999>;
