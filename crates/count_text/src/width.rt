//! The columns of a count.

ghost use Rattle.std.specs.Prelude.{◌≡◌, ◌^◌, ◌<◌, ◌≤◌, ◌⊎◌, length, Decides, MatchOption};

use crate::digits::digit_count;

/// The most columns of a count: an `i64` holds every number of 18 digits, and not every one of 19.
const WIDEST: usize = 18;

/// The columns of a count: 1 to 18.
#[derive(Clone, Copy)]
pub struct Width {
    columns: usize,
    ghost some: { 0 < columns },
    ghost few: { columns ≤ 18 },
}

impl Width {
    pub const ONE: Width = Width { columns: 1 };

    pub const TWO: Width = Width { columns: 2 };

    pub const THREE: Width = Width { columns: 3 };

    pub const SIX: Width = Width { columns: 6 };

    pub const NINE: Width = Width { columns: 9 };

    /// The width of so many columns, where a count may have them.
    pub fn new(columns: usize) -> Option<Width>
        ensures { MatchOption result ((columns ≡ 0) ⊎ (18 < columns)) (λ width. width.columns ≡ columns) }
    {
        match columns {
            1..=WIDEST => Some(Width { columns }),
            _ => None,
        }
    }

    /// How many columns there are.
    pub fn columns(self) -> usize
        ensures { result ≡ self.columns }
    {
        self.columns
    }

    /// Whether a count has no more digits than there are columns.
    pub fn holds(self, n: u64) -> bool
        ensures { Decides result (n < 10 ^ self.columns) }
    {
        digit_count(n) <= self.columns
    }

    /// Whether a text has as many bytes as there are columns.
    pub(crate) fn is_filled_by(self, text: &[u8]) -> bool
        ensures { Decides result (length text.now ≡ self.columns) }
    {
        text.len() == self.columns
    }
}
