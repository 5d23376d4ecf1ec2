//! Deviation accounts: how far the figures of a quarter hour lay outside their bands, added up.
//!
//! An [`Account`] judges each figure by the rule that it holds at that moment. Its total is the least change that would
//! have brought all its figures inside, and [`follow`] promises that for every [`AccountClient`], whatever it does.
//!
//! ```text
//! let mut account = Account::new(band);
//! account.add(realised)?;
//! account.replace(next_band);
//! let deviation = account.total();
//! ```

#![tactic(auto)]

mod calls;
mod client;
mod following;
mod state;

pub use client::{AccountClient, Answer, Call};
pub use following::follow;
pub use state::Account;
