//! The lines of a day's statement, written and read back: its opening, a record for each closed quarter hour, its tail.
//!
//! [`read_line`] takes a line with its LF and answers the [`StatementLine`] that it writes, or the fault that comes first in
//! the order of checks, with its column. [`write_opening_line`], [`write_record_line`] and [`write_tail_line`] write such lines;
//! what one of them writes is read back as the same values, and what is read at all is written as the same bytes.
//!
//! ```text
//! let mut line = [0; 12];
//! write_opening_line(&opening, &mut line)?;  // b"D     7 961\n": day 7, 96 quarter hours, one group
//! let read = read_line(&line)?;              // StatementLine::Opening, the same opening
//! ```

#![tactic(auto)]

mod day;
mod day_length;
mod group_count;
mod opening;
mod opening_line;
mod record;
mod record_line;
mod statement_line;
mod tail_line;

pub use day::Day;
pub use day_length::DayLength;
pub use group_count::GroupCount;
pub use opening::Opening;
pub use opening_line::{OPENING_LENGTH, write_opening_line};
pub use record::SettlementRecord;
pub use record_line::{RECORD_LENGTH, RecordLine, write_record_line};
pub use statement_line::{StatementLine, read_line};
pub use tail_line::{REQUESTS, TAIL_LENGTH, TailLine, write_tail_line};
