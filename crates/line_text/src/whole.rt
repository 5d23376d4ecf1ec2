//! The length of a line.

ghost use Rattle.std.specs.Prelude.{◌≡◌, ◌+◌, ◌*◌, ◌^◌, ◌≤◌, MatchOption};
ghost use Rattle.line_text.specs.NumberedRows.{is_whole};

use count_text::Width;
use figure_text::COLUMNS;

/// Whether a line has a length and ends with LF.
pub fn is_whole(line: &[u8], length: usize) -> bool
    ensures { result ≡ is_whole length line.now }
{
    line.len() == length && line.last() == Some(&b'\n')
}

/// The bytes of a numbered row: its letter, a count, figures and LF; none where a `usize` cannot tell.
pub(crate) fn row_length(width: Width, figures: usize) -> Option<usize>
    ensures { MatchOption result (2 ^ 64 ≤ 2 + width.columns + 20 * figures)
        (λ length. length ≡ 2 + width.columns + 20 * figures) }
{
    COLUMNS
        .checked_mul(figures)?
        .checked_add(2 + width.columns())
}
