//! The three kinds of line in a statement.

ghost use Rattle.std.specs.Prelude.{◌≡◌, IfOk, Ok};
ghost use Rattle.line_text.specs.Faults.{Judged};
ghost use Rattle.statement_lines.specs.Kinds.{LineIn, line_fault};

use crate::opening::Opening;
use crate::opening_line::read_opening;
use crate::record_line::{RecordLine, read_record};
use crate::tail_line::{TailLine, read_tail};
use line_text::{LineFault, letter};

/// A line of a statement, as it is read.
#[derive(Clone, Copy)]
pub enum StatementLine {
    Opening(Opening),
    Record(RecordLine),
    Tail(TailLine),
}

/// Reads a line of a statement, its LF included.
/// Refuses another letter, then another length (18, column 1), then the first field from the left that is not in its form (17, its first column).
pub fn read_line(line: &[u8]) -> Result<StatementLine, LineFault>
    ensures written_is_read { (read : StatementLine) → LineIn read line.now → result ≡ Ok read }
    ensures read_is_written { IfOk result (λ read. LineIn read line.now) }
    ensures first_fault { Judged (line_fault line.now) result }
{
    match letter(line) {
        Some('D') => Ok(StatementLine::Opening(read_opening(line)?)),
        Some('I') => Ok(StatementLine::Record(read_record(line)?)),
        Some('T') => Ok(StatementLine::Tail(read_tail(line)?)),
        _ => Err(LineFault::not_a_line()),
    }
}
