//! Quantities of balancing reserve: powers in MW, energies in MWh and shares in percent, each a whole number of units of
//! 10^-10, and the one rounding by which they become one another.
//!
//! Start from [`Power`] and [`Energy`], which only a duration joins, [`round_quotient`], and [`Refusal`], which says why a
//! call of any crate is refused.
//!
//! ```text
//! let deviation = Power::from_units(30).lasting(Minutes::ONE);  // half a unit of energy, rounded to 1
//! ```

#![tactic(auto)]

mod activated_energy;
mod deviation_energy;
mod divisor;
mod energy;
mod limited;
mod minutes;
mod power;
mod refusal;
mod rounding;
mod series;
mod share;
mod up_to;

pub use activated_energy::{ActivatedEnergy, ActivationLimits};
pub use deviation_energy::{DeviationEnergy, DeviationLimits};
pub use divisor::Divisor;
pub use energy::Energy;
pub use limited::{Limited, Limits, Quantity};
pub use minutes::Minutes;
pub use power::{POWER_LIMIT, Power};
pub use refusal::Refusal;
pub use rounding::round_quotient;
pub use series::{all_within, is_within, total};
pub use share::Share;
pub use up_to::UpTo;

#[cfg(test)]
mod tests;
