//! A statement as values.

ghost use Rattle.std.specs.Prelude.{◌≡◌, take as first};

use crate::records::Records;
use statement_lines::{Opening, SettlementRecord, TailLine};

/// A day's statement: its opening, the record of each closed quarter hour in order, and its tail.
#[derive(Clone, Copy)]
pub struct Statement {
    pub(crate) opening: Opening,
    pub(crate) records: Records,
    pub(crate) tail: TailLine,
}

impl Statement {
    pub fn opening(&self) -> Opening
        ensures { result ≡ self.now.opening }
    {
        self.opening
    }

    /// The record of each closed quarter hour, in order.
    pub fn records(&self) -> &[SettlementRecord]
        ensures { result.now ≡ first self.now.records.count self.now.records.list }
    {
        self.records.as_slice()
    }

    /// The six newest requests, oldest first.
    pub fn requests(&self) -> &[i64]
        ensures { result.now ≡ self.now.tail.requests }
    {
        &self.tail.requests
    }
}
