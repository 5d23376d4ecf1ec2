//! The text of a statement that was written and not yet handed out: lines come in at its end, and blocks of 512 bytes leave
//! it at its front.
//!
//! ```text
//! let mut pending = PendingText::new();
//! pending.append_opening(&opening)?;
//! pending.append_record(1, &record)?;
//! pending.take_block(&mut buffer)?;   // refused (15) until 512 bytes are pending
//! ```

#![tactic(auto)]

mod append;
mod pending;
mod take;

pub use pending::{BLOCK, CAPACITY, PendingText};
