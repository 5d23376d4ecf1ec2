//! Figures in a row: one after another, twenty columns each.

ghost use Rattle.std.specs.Prelude.{◌≡◌, ◌*◌, ◌≤◌, ◌++◌, length, drop, Decides};
ghost use Rattle.count_text.specs.Columns.{Writes, bytes_after};
ghost use Rattle.figure_text.specs.Rows.{Writable, row_text, row_refusal, RowRead};

use crate::form::COLUMNS;
use crate::read::read_figure;
use crate::write::{is_writable, put_figure};
use quantity::Refusal;

/// Reads the figures that stand one after another from the text's first byte on, as many as there are places.
/// Where one is not in its form, answers its index and leaves its place and those behind it as they were.
pub fn read_row(text: &[u8], places: &mut [i64]) -> Result<(), usize>
    ensures { RowRead text.now result places.old places.new }
{
    let mut rest = text;
    for (k, place) in places.iter_mut().enumerate() {
        let (field, after) = rest.split_at_checked(COLUMNS).ok_or(k)?;
        *place = read_figure(field).map_err(|_| k)?;
        rest = after;
    }
    Ok(())
}

/// Whether each figure can be written.
pub fn are_writable(figures: &[i64]) -> bool
    ensures { Decides result (Writable figures.now) }
{
    figures.iter().all(|figure| is_writable(*figure))
}

/// Writes figures one after another, each over its columns.
fn put_row(figures: &[i64], out: &mut [u8])
    requires writable { Writable figures.now }
    requires room { 20 * length figures.now ≤ length out.old }
    ensures { out.new ≡ row_text figures.now ++ drop (20 * length figures.now) out.old }
{
    // By index: what is written through the items of `chunks_exact_mut` is not known behind the loop.
    for (k, figure) in figures.iter().enumerate() {
        let start = COLUMNS * k;
        put_figure(*figure, &mut out[start..start + COLUMNS]);
    }
}

/// Writes figures one after another over the first bytes of `out`, 20 to each.
/// Refuses a figure with more than eight digits before the point (11), then a buffer of fewer bytes (16); a refusal leaves
/// every byte as it was.
pub fn write_row(figures: &[i64], out: &mut [u8]) -> Result<(), Refusal>
    ensures refused_first { Writes (row_refusal figures.now (length out.old)) result }
    ensures bytes { out.new
        ≡ bytes_after (row_refusal figures.now (length out.old)) (row_text figures.now) out.old }
{
    if !are_writable(figures) {
        return Err(Refusal::OutOfRange);
    }
    if figures.len() > out.len() / COLUMNS {
        return Err(Refusal::BufferTooShort);
    }
    put_row(figures, out);
    Ok(())
}
