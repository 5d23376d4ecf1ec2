//! A day's statement as text: its opening line, a record line for each closed quarter hour in order, its tail line.
//!
//! [`StatementReader`] hands out the lines of a text one by one, as parts of it, and says of the first line that does not
//! belong there what is wrong with it and where. [`read_statement`] takes in a whole text as a [`Statement`];
//! [`write_statement`] writes one. What is written is read back as the same values, and a text that is read at all is,
//! byte for byte, what writing its values gives.
//!
//! ```text
//! let statement = read_statement(text)?;
//! let closed = statement.records().len();       // the quarter hours that were closed
//! let next_day = statement.requests();          // the six requests that open the next day's window
//! ```

#![tactic(auto)]

mod fault;
mod read;
mod reader;
mod records;
mod stage;
mod statement;
mod write;

pub use fault::TextFault;
pub use read::read_statement;
pub use reader::StatementReader;
pub use statement::Statement;
pub use write::write_statement;
