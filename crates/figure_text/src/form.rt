//! The form of a figure.

/// The columns of a figure: for a minus, eight digits, the point and ten decimals.
pub const COLUMNS: usize = 20;

/// Where the point stands: behind the columns of a minus and eight digits.
pub(crate) const POINT: usize = 9;

/// The digits behind the point: a unit is 10^-10.
pub(crate) const DECIMALS: usize = 10;

/// The units of one whole.
pub(crate) const UNITS_PER_WHOLE: u64 = 10_000_000_000;

/// The first whole that has more than eight digits.
pub(crate) const WHOLE_LIMIT: u64 = 100_000_000;
