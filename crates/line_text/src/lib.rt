//! Lines of text, written and read: a letter, a count, figures in a row and LF.
//!
//! Such a line is a numbered row. [`write_numbered_row`] writes one, and [`read_numbered_row`] reads what stands behind the
//! letter or answers the [`LineFault`] that comes first in the order of checks, with its column. Other lines are made of the
//! same parts: [`letter`], [`is_whole`] for their length, [`LineFault`] for what is wrong with them.
//!
//! ```text
//! let mut line = [0; 26];
//! write_numbered_row(b'M', 7, Width::THREE, &[125_000_000_000], &mut line)?;  // b"M  7       12.5000000000\n" and a byte
//! let mut figures = [0];
//! let number = read_numbered_row(&line[0..25], Width::THREE, &mut figures)?;  // 7, and 125_000_000_000 in figures
//! ```

#![tactic(auto)]

mod fault;
mod first_letter;
mod numbered_row;
mod whole;

pub use fault::LineFault;
pub use first_letter::letter;
pub use numbered_row::{read_numbered_row, write_numbered_row};
pub use whole::is_whole;

#[cfg(test)]
mod tests;
