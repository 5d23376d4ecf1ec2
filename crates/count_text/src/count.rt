//! Counts, written and read.

ghost use Rattle.std.specs.Prelude.{◌≡◌, ℕ, ◌^◌, ◌<◌, length, Ok};
ghost use Rattle.count_text.specs.Columns.{count_text_of, CountIn, count_refusal, Writes, bytes_after, RefusesBy};

use crate::digits::{blanks, digit_count, read_plain, write_fixed};
use crate::width::Width;
use quantity::Refusal;

/// Writes a count over the whole of `columns`: with zeros before it, and then blanks in their place.
fn put_count(n: u64, columns: &mut [u8])
    requires { (0 < length columns.old) × (n < 10 ^ length columns.old) }
    ensures { columns.new ≡ count_text_of (length columns.old) n }
{
    write_fixed(n, columns);
    let start = columns.len() - digit_count(n);
    columns[..start].fill(b' ');
}

/// Writes a count over the first columns of `out`.
/// Refuses a count with more digits than columns (11), then a buffer with fewer bytes than columns (16); a refusal leaves
/// every byte as it was.
pub fn write_count(n: u64, width: Width, out: &mut [u8]) -> Result<(), Refusal>
    ensures refused_first { Writes (count_refusal width.columns n (length out.old)) result }
    ensures bytes { out.new ≡ bytes_after (count_refusal width.columns n (length out.old)) (count_text_of width.columns n) out.old }
{
    if !width.holds(n) {
        return Err(Refusal::OutOfRange);
    }
    let columns = width.columns();
    if out.len() < columns {
        return Err(Refusal::BufferTooShort);
    }
    put_count(n, &mut out[..columns]);
    Ok(())
}

/// Reads a count from a text that is as long as its columns.
/// Refuses a text that no count has in these columns (17).
pub fn read_count(text: &[u8], width: Width) -> Result<u64, Refusal>
    ensures written_is_read { (n : ℕ) → CountIn width.columns n text.now → result ≡ Ok n }
    ensures read_is_written { (n : ℕ) → result ≡ Ok n → CountIn width.columns n text.now }
    ensures refused { RefusesBy 17 result }
{
    if !width.is_filled_by(text) {
        return Err(Refusal::NotInForm);
    }
    read_plain(&text[blanks(text)..]).ok_or(Refusal::NotInForm)
}
