//! The calls of a day as lines of text, one call to a line. So far there is the line of a request.
//!
//! [`read_request_line`] takes a line with its LF and answers a [`RequestLine`], whose samples go into a request, or the
//! [`LineFault`] that says what is wrong first and at which column.

#![tactic(auto)]

mod request_line;

pub use line_text::LineFault;
pub use request_line::{RequestLine, read_request_line};

#[cfg(test)]
mod tests;
