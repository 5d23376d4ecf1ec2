//! The terms of a quarter hour: the reserve that was procured, the bids that were accepted and the energy that was activated.
//!
//! Start from [`IntervalTerms`], from which the floor under offered reserve and the allowance of the tolerance band follow.
//!
//! ```text
//! let terms = IntervalTerms::new(procured, &upward, &downward, raised, lowered)?;
//! let allowance = terms.allowance();
//! ```

#![tactic(auto)]

mod activated;
mod bids;
mod procured;
mod terms;

pub use bids::{MOST_BIDS, sum_of_bids};
pub use procured::{ProcuredLimits, ProcuredReserve};
pub use terms::IntervalTerms;

#[cfg(test)]
mod tests;
