//! Lines at the end of the pending text.

ghost use Rattle.count_text.specs.Columns.{Writes};
ghost use Rattle.statement_lines.specs.Openings.{opening_text, opening_refusal};
ghost use Rattle.statement_lines.specs.Records.{record_text, record_refusal, tail_text, tail_refusal};
ghost use Rattle.pending_text.specs.Pending.{room_in, Appended};

use crate::pending::PendingText;
use quantity::Refusal;
use statement_lines::{
    OPENING_LENGTH, Opening, RECORD_LENGTH, SettlementRecord, TAIL_LENGTH, write_opening_line,
    write_record_line, write_tail_line,
};

impl PendingText {
    /// Appends an opening line. Refuses it where there is no room (16), and leaves everything as it was.
    pub fn append_opening(&mut self, opening: &Opening) -> Result<(), Refusal>
        ensures refused_first { Writes (opening_refusal (room_in self.old)) result }
        ensures text { Appended (opening_refusal (room_in self.old)) (opening_text opening.now) self.old self.new }
    {
        write_opening_line(opening, &mut self.bytes[self.length..])?;
        self.length += OPENING_LENGTH;
        Ok(())
    }

    /// Appends the line of a record. Refuses a number or a figure that is too wide for its columns (11), then a line for
    /// which there is no room (16), and leaves everything as it was.
    pub fn append_record(
        &mut self,
        quarter_hour: u64,
        record: &SettlementRecord,
    ) -> Result<(), Refusal>
        ensures refused_first { Writes (record_refusal quarter_hour «record».now (room_in self.old)) result }
        ensures text { Appended (record_refusal quarter_hour «record».now (room_in self.old)) (record_text quarter_hour «record».now) self.old self.new }
    {
        write_record_line(quarter_hour, record, &mut self.bytes[self.length..])?;
        self.length += RECORD_LENGTH;
        Ok(())
    }

    /// Appends a tail line. Refuses requests that are not six, or a count or a request that is too wide (11), then a line
    /// for which there is no room (16), and leaves everything as it was.
    pub fn append_tail(&mut self, closed: u64, requests: &[i64]) -> Result<(), Refusal>
        ensures refused_first { Writes (tail_refusal closed requests.now (room_in self.old)) result }
        ensures text { Appended (tail_refusal closed requests.now (room_in self.old)) (tail_text closed requests.now) self.old self.new }
    {
        write_tail_line(closed, requests, &mut self.bytes[self.length..])?;
        self.length += TAIL_LENGTH;
        Ok(())
    }
}
