//! Bands and what lies outside them: the tolerance band around the requests of seven minutes, the floor under offered
//! reserve, and any other rule that says where its ends are.
//!
//! Start from [`BandRule`], which every kind of band keeps, and [`distance`], which measures a figure against one.
//! [`first_foremost`] is the one search, for every [`Order`].
//!
//! ```text
//! let band = ToleranceBand::over(&window, Allowance::of_bids(upward, downward));
//! let stray = distance(&band, realised)?;
//! ```

#![tactic(auto)]

mod allowance;
mod band_end;
mod bid_sum;
mod floor;
mod order;
mod outside;
mod request_orders;
mod rule;
mod search;
mod tolerance;

pub use allowance::Allowance;
pub use band_end::{BandEnd, EndLimits};
pub use bid_sum::{BidLimits, BidSum};
pub use floor::Floor;
pub use order::{Order, Reversed};
pub use outside::{FIGURE_LIMIT, distance};
pub use request_orders::{HighestFirst, LowestFirst};
pub use rule::BandRule;
pub use search::first_foremost;
pub use tolerance::{ToleranceBand, WINDOW};

#[cfg(test)]
mod tests;
