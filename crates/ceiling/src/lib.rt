//! A band rule that the library does not know, with a high end and no low one, and accounts with it.
//!
//! Nothing in the library was changed for it: an account takes the rule, and `follow` promises its least change.

#![tactic(auto)]

mod client;
mod rule;

pub use client::{Repeater, follow_ceiling};
pub use rule::Ceiling;

#[cfg(test)]
mod tests;
