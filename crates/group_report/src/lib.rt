//! What the groups of a pool report of one minute, and what their reports come to.
//!
//! A [`GroupReport`] holds what one group reports: its [`Participation`] in each service, from status samples, and its
//! figures. [`offered_reserve`] and [`realised_power`] are the sums over the groups of a pool.
//!
//! ```text
//! let report = GroupReport::new(&fcr_samples, &afrr_samples, offered, measured, fcr_energy, baseline)?;
//! let realised = realised_power(&[Some(report), None, None, None, None, None, None, None]);
//! ```

#![tactic(auto)]

mod figures;
mod minute;
mod participation;
mod report;
mod reserve;

pub use figures::ENERGY_LIMIT;
pub use minute::{MOST_GROUPS, offered_reserve, realised_power};
pub use participation::{Participation, STATUS_SAMPLES};
pub use report::GroupReport;
pub use reserve::{PrequalifiedLimits, PrequalifiedReserve};

#[cfg(test)]
mod tests;
