//! The line of a record, written and read.

ghost use Rattle.std.specs.Prelude.{◌≡◌, length, IfOk, slice_index};
ghost use Rattle.count_text.specs.Columns.{Writes, bytes_after};
ghost use Rattle.line_text.specs.Faults.{Judged};
ghost use Rattle.line_text.specs.NumberedRows.{NumberedIn, numbered_fault};
ghost use Rattle.statement_lines.specs.Records.{figures_of, record_text, record_refusal};

use crate::record::{FIGURES, SettlementRecord};
use count_text::Width;
use line_text::{LineFault, read_numbered_row, write_numbered_row};
use quantity::Refusal;

/// The bytes of a record's line: the letter, three columns for the quarter hour, eight figures, LF.
pub const RECORD_LENGTH: usize = 165;

/// A record, and the number of its quarter hour from 1.
#[derive(Clone, Copy)]
pub struct RecordLine {
    pub quarter_hour: u64,
    pub record: SettlementRecord,
}

/// Writes the line of a record over the first bytes of `out`.
/// Refuses a number or a figure that is too wide for its columns (11), then a buffer that is shorter than the line (16); a
/// refusal leaves every byte as it was.
pub fn write_record_line(
    quarter_hour: u64,
    record: &SettlementRecord,
    out: &mut [u8],
) -> Result<(), Refusal>
    ensures refused_first { Writes (record_refusal quarter_hour «record».now (length out.old)) result }
    ensures bytes { out.new ≡ bytes_after (record_refusal quarter_hour «record».now (length out.old)) (record_text quarter_hour «record».now) out.old }
{
    write_numbered_row(b'I', quarter_hour, Width::THREE, &record.figures(), out)
}

/// Reads what stands behind the letter of a record's line.
pub(crate) fn read_record(line: &[u8]) -> Result<RecordLine, LineFault>
    ensures first_fault { Judged (numbered_fault 3 8 line.now) result }
    ensures read_is_written { IfOk result (λ row. NumberedIn (slice_index line.now 0) 3 row.quarter_hour (figures_of row.«record») line.now) }
{
    let mut figures = [0; FIGURES];
    let quarter_hour = read_numbered_row(line, Width::THREE, &mut figures)?;
    Ok(RecordLine {
        quarter_hour,
        record: SettlementRecord::of_figures(&figures),
    })
}
