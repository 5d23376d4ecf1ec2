//! Numbered rows, written and read.

ghost use Rattle.std.specs.Prelude.{◌≡◌, ◌+◌, ◌*◌, ◌≤◌, length, drop, IfOk, IfErr, Decides, slice_index};
ghost use Rattle.count_text.specs.Columns.{Writes, bytes_after};
ghost use Rattle.figure_text.specs.Rows.{Filled};
ghost use Rattle.line_text.specs.Faults.{Judged};
ghost use Rattle.line_text.specs.NumberedRows.{numbered_text, is_whole, NumberedIn, numbered_fault, figures_before, numbered_refusal};

use crate::fault::LineFault;
use crate::whole::{is_whole, row_length};
use count_text::{Width, read_count, write_count};
use figure_text::{COLUMNS, are_writable, read_row, write_row};
use quantity::Refusal;

/// Whether a line is as long as a numbered row with so many figures, and ends with LF.
fn is_row(line: &[u8], width: Width, figures: usize) -> bool
    ensures { result ≡ is_whole (2 + width.columns + 20 * figures) line.now }
{
    row_length(width, figures).is_some_and(|length| is_whole(line, length))
}

/// Reads what stands behind the letter of a numbered row: answers its number and fills the places with its figures.
/// Refuses another length (18, column 1), then the number where it is not in its form (17, column 2), then the first such
/// figure (17, its first column); the places before that figure are filled, the others as they were.
pub fn read_numbered_row(line: &[u8], width: Width, figures: &mut [i64]) -> Result<u64, LineFault>
    ensures first_fault { Judged (numbered_fault width.columns (length figures.old) line.now) result }
    ensures read_is_written { IfOk result (λ n. NumberedIn (slice_index line.now 0) width.columns n figures.new line.now) }
    ensures places { IfErr result (λ fault. Filled (figures_before width.columns fault.column)
        (drop (1 + width.columns) line.now) figures.old figures.new) }
{
    if !is_row(line, width, figures.len()) {
        return Err(LineFault::not_a_line());
    }
    let start = 1 + width.columns();
    let number = read_count(&line[1..start], width).map_err(|_| LineFault::not_in_form(2))?;
    // `map_err` was tried: what holds of the index is not proved of a closure's.
    match read_row(&line[start..], figures) {
        Ok(()) => Ok(number),
        Err(k) => Err(LineFault::not_in_form(start + 1 + COLUMNS * k)),
    }
}

/// Whether a buffer has room for a numbered row with so many figures.
fn has_room(width: Width, figures: usize, out: &[u8]) -> bool
    ensures { Decides result (2 + width.columns + 20 * figures ≤ length out.now) }
{
    row_length(width, figures).is_some_and(|length| length <= out.len())
}

// No struct of the row's parts: a caller would name them as often, and each clause would read them through it.
/// Writes a numbered row over the first bytes of `out`: the letter, the number, the figures and LF.
/// Refuses a number or a figure that is too wide for its columns (11), then a buffer that is shorter than the row (16); a
/// refusal leaves every byte as it was.
pub fn write_numbered_row(
    letter: u8,
    number: u64,
    width: Width,
    figures: &[i64],
    out: &mut [u8],
) -> Result<(), Refusal>
    ensures refused_first { Writes (numbered_refusal width.columns number figures.now (length out.old)) result }
    ensures bytes { out.new
        ≡ bytes_after (numbered_refusal width.columns number figures.now (length out.old))
        (numbered_text letter width.columns number figures.now) out.old }
{
    if !width.holds(number) || !are_writable(figures) {
        return Err(Refusal::OutOfRange);
    }
    if !has_room(width, figures.len(), out) {
        return Err(Refusal::BufferTooShort);
    }
    let start = 1 + width.columns();
    let end = start + COLUMNS * figures.len();
    out[0] = letter;
    write_count(number, width, &mut out[1..start]).unwrap();
    write_row(figures, &mut out[start..end]).unwrap();
    out[end] = b'\n';
    Ok(())
}
