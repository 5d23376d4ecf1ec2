//! Figures, read.

ghost use Rattle.std.specs.Prelude.{◌≡◌, ◌^◌, ◌<◌, ℤ, pos, neg_ℤ, Ok, MatchOption};
ghost use Rattle.count_text.specs.Columns.{Reads, RefusesBy};
ghost use Rattle.figure_text.specs.Figures.{SizeIn, SignedIn, FigureIn};

use crate::form::{COLUMNS, DECIMALS, UNITS_PER_WHOLE, WHOLE_LIMIT};
use count_text::{blanks, read_fixed, read_plain};
use quantity::Refusal;

/// The units of a size that fills the whole text.
fn size_in(text: &[u8]) -> Option<u64>
    ensures { Reads SizeIn text.now result }
{
    let (whole, behind) = text.split_at(text.len().checked_sub(DECIMALS + 1)?);
    let whole = read_plain(whole).filter(|whole| *whole < WHOLE_LIMIT)?;
    let decimals = read_fixed(behind.strip_prefix(b".")?)?;
    Some(whole * UNITS_PER_WHOLE + decimals)
}

/// The negative figure of a size, if that is not zero.
fn negative(size: u64) -> Option<i64>
    requires { size < 10 ^ 18 }
    ensures { MatchOption result (size ≡ 0) (λ x. (0 < size) × (x ≡ neg_ℤ (pos size))) }
{
    match size {
        0 => None,
        // No `From` takes a u64 to an i64.
        _ => Some(-(size as i64)),
    }
}

/// The figure that fills the whole text, no blanks before it.
fn signed_in(text: &[u8]) -> Option<i64>
    ensures { Reads SignedIn text.now result }
{
    match text.strip_prefix(b"-") {
        Some(rest) => negative(size_in(rest)?),
        // No `From` takes a u64 to an i64.
        None => Some(size_in(text)? as i64),
    }
}

/// Reads a figure from a text that is as long as its columns.
/// Refuses a text that no figure has (17).
pub fn read_figure(text: &[u8]) -> Result<i64, Refusal>
    ensures written_is_read { (x : ℤ) → FigureIn x text.now → result ≡ Ok x }
    ensures read_is_written { (x : ℤ) → result ≡ Ok x → FigureIn x text.now }
    ensures refused { RefusesBy 17 result }
{
    if text.len() != COLUMNS {
        return Err(Refusal::NotInForm);
    }
    signed_in(&text[blanks(text)..]).ok_or(Refusal::NotInForm)
}
