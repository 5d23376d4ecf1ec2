//! What the system operator asked of the pool, minute by minute.
//!
//! An [`ActivationRequest`] is the mean power of a minute, from thirty upward and thirty downward samples; its
//! [`Direction`] says which way the minute was activated.
//!
//! ```text
//! let request = ActivationRequest::of_samples(&upward, &downward)?;
//! let way = request.direction();
//! ```

#![tactic(auto)]

mod direction;
mod request;

pub use direction::Direction;
pub use request::{ActivationRequest, SAMPLES};

#[cfg(test)]
mod tests;
