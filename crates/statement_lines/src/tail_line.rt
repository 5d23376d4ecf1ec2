//! The tail line, written and read.

ghost use Rattle.std.specs.Prelude.{◌≡◌, length, IfOk, slice_index};
ghost use Rattle.count_text.specs.Columns.{Writes, bytes_after};
ghost use Rattle.line_text.specs.Faults.{Judged};
ghost use Rattle.line_text.specs.NumberedRows.{NumberedIn, numbered_fault};
ghost use Rattle.statement_lines.specs.Records.{tail_text, tail_refusal};

use count_text::Width;
use line_text::{LineFault, read_numbered_row, write_numbered_row};
use quantity::Refusal;

/// The bytes of a tail line: the letter, three columns for the closed quarter hours, six figures, LF.
pub const TAIL_LENGTH: usize = 125;

/// The requests that a tail hands on: those of the six newest minutes, which open the next day's window.
pub const REQUESTS: usize = 6;

/// How many quarter hours were closed, and the six newest requests, oldest first.
#[derive(Clone, Copy)]
pub struct TailLine {
    pub closed: u64,
    pub requests: [i64; REQUESTS],
}

/// Writes a tail line over the first bytes of `out`.
/// Refuses requests that are not six, and a count or a request that is too wide for its columns (11), then a buffer that is
/// shorter than the line (16); a refusal leaves every byte as it was.
pub fn write_tail_line(closed: u64, requests: &[i64], out: &mut [u8]) -> Result<(), Refusal>
    ensures refused_first { Writes (tail_refusal closed requests.now (length out.old)) result }
    ensures bytes { out.new ≡ bytes_after (tail_refusal closed requests.now (length out.old)) (tail_text closed requests.now) out.old }
{
    if requests.len() != REQUESTS {
        return Err(Refusal::OutOfRange);
    }
    write_numbered_row(b'T', closed, Width::THREE, requests, out)
}

/// Reads what stands behind the letter of a tail line.
pub(crate) fn read_tail(line: &[u8]) -> Result<TailLine, LineFault>
    ensures first_fault { Judged (numbered_fault 3 6 line.now) result }
    ensures read_is_written { IfOk result (λ row. (length row.requests ≡ 6) × NumberedIn (slice_index line.now 0) 3 row.closed row.requests line.now) }
{
    let mut requests = [0; REQUESTS];
    let closed = read_numbered_row(line, Width::THREE, &mut requests)?;
    Ok(TailLine { closed, requests })
}
