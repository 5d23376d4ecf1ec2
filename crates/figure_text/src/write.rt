//! Figures, written.

ghost use Rattle.std.specs.Prelude.{◌≡◌, ◌^◌, ◌<◌, ◌≤◌, ◌++◌, length, drop, Decides, unsigned_abs};
ghost use Rattle.count_text.specs.Columns.{Writes, bytes_after};
ghost use Rattle.figure_text.specs.Figures.{IsWritable, whole_text, figure_text_of, figure_refusal};

use crate::form::{COLUMNS, POINT, UNITS_PER_WHOLE, WHOLE_LIMIT};
use count_text::{Width, blanks, write_count, write_fixed};
use quantity::Refusal;

/// Whether a figure has at most eight digits before the point, so that its columns can hold it.
pub fn is_writable(units: i64) -> bool
    ensures { Decides result (IsWritable units) }
{
    units.unsigned_abs() < WHOLE_LIMIT * UNITS_PER_WHOLE
}

/// Writes what stands before the point over the first columns of `out`: eight digits at most, so that one column is left
/// for the minus.
fn put_whole(units: i64, out: &mut [u8])
    requires writable { IsWritable units }
    requires room { 9 ≤ length out.old }
    ensures { out.new ≡ whole_text units ++ drop 9 out.old }
{
    write_count(units.unsigned_abs() / UNITS_PER_WHOLE, Width::NINE, out).unwrap();
    if units < 0 {
        out[blanks(out) - 1] = b'-';
    }
}

/// Writes a figure over the whole of its columns.
pub(crate) fn put_figure(units: i64, columns: &mut [u8])
    requires writable { IsWritable units }
    requires room { length columns.old ≡ 20 }
    ensures { columns.new ≡ figure_text_of units }
{
    put_whole(units, columns);
    columns[POINT] = b'.';
    write_fixed(units.unsigned_abs(), &mut columns[POINT + 1..]);
}

/// Writes a figure over the first 20 bytes of `out`.
/// Refuses a figure with more than eight digits before the point (11), then a buffer of fewer bytes (16); a refusal leaves
/// every byte as it was.
pub fn write_figure(units: i64, out: &mut [u8]) -> Result<(), Refusal>
    ensures refused_first { Writes (figure_refusal units (length out.old)) result }
    ensures bytes { out.new
        ≡ bytes_after (figure_refusal units (length out.old)) (figure_text_of units) out.old }
{
    if !is_writable(units) {
        return Err(Refusal::OutOfRange);
    }
    if out.len() < COLUMNS {
        return Err(Refusal::BufferTooShort);
    }
    put_figure(units, &mut out[..COLUMNS]);
    Ok(())
}
