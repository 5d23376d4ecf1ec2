//! The opening line, written and read.

ghost use Rattle.std.specs.Prelude.{◌≡◌, ◌∷◌, length, is_some, IfSome, IfOk, slice_index};
ghost use Rattle.count_text.specs.Columns.{CountIn, Writes, bytes_after};
ghost use Rattle.line_text.specs.Faults.{Judged};
ghost use Rattle.statement_lines.specs.Openings.{quarter_hours_of, behind_letter, opening_text, is_up_to, is_day_length, opening_fault, opening_refusal};

use crate::day_length::DayLength;
use crate::opening::Opening;
use count_text::{Width, read_count, write_count};
use line_text::{LineFault, is_whole};
use quantity::{Refusal, UpTo};

/// The bytes of an opening line: the letter, six columns for the day, three for its quarter hours, one for the groups, LF.
pub const OPENING_LENGTH: usize = 12;

/// Writes an opening line over the first bytes of `out`.
/// Refuses a buffer that is shorter than the line (16) and leaves every byte as it was.
pub fn write_opening_line(opening: &Opening, out: &mut [u8]) -> Result<(), Refusal>
    ensures refused_first { Writes (opening_refusal (length out.old)) result }
    ensures bytes { out.new ≡ bytes_after (opening_refusal (length out.old)) (opening_text opening.now) out.old }
{
    if out.len() < OPENING_LENGTH {
        return Err(Refusal::BufferTooShort);
    }
    out[0] = b'D';
    write_count(opening.day.number(), Width::SIX, &mut out[1..7]).unwrap();
    write_count(
        opening.length.quarter_hours(),
        Width::THREE,
        &mut out[7..10],
    )
    .unwrap();
    write_count(opening.groups.number(), Width::ONE, &mut out[10..11]).unwrap();
    out[11] = b'\n';
    Ok(())
}

/// The number from 1 to MOST that a text writes over its columns, where it does.
fn up_to_in<const MOST: u64>(text: &[u8], width: Width) -> Option<UpTo<MOST>>
    ensures test { is_some result ≡ is_up_to MOST width.columns text.now }
    ensures read_is_written { IfSome result (λ n. CountIn width.columns n.number text.now) }
{
    UpTo::new(read_count(text, width).ok()?)
}

/// The length of a day that three columns write, where there is such a day.
// Not `up_to_in`: a length is one of three cases, and no number up to a limit.
fn day_length_in(text: &[u8]) -> Option<DayLength>
    ensures test { is_some result ≡ is_day_length text.now }
    ensures read_is_written { IfSome result (λ length. CountIn 3 (quarter_hours_of length) text.now) }
{
    DayLength::new(read_count(text, Width::THREE).ok()?)
}

/// Reads what stands behind the letter of an opening line.
/// Refuses another length (18, column 1), then the first field from the left that is not in its form or out of its range (17, its first column).
pub(crate) fn read_opening(line: &[u8]) -> Result<Opening, LineFault>
    ensures first_fault { Judged (opening_fault line.now) result }
    ensures read_is_written { IfOk result (λ opening. line.now ≡ slice_index line.now 0 ∷ behind_letter opening) }
{
    if !is_whole(line, OPENING_LENGTH) {
        return Err(LineFault::not_a_line());
    }
    let day = up_to_in(&line[1..7], Width::SIX).ok_or(LineFault::not_in_form(2))?;
    let length = day_length_in(&line[7..10]).ok_or(LineFault::not_in_form(8))?;
    let groups = up_to_in(&line[10..11], Width::ONE).ok_or(LineFault::not_in_form(11))?;
    Ok(Opening {
        day,
        length,
        groups,
    })
}
