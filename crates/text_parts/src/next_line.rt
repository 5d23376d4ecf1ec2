//! The next line of a text.

ghost use Rattle.std.specs.Prelude.{MatchOption};
ghost use Rattle.std.specs.Iterator.{item_count};
ghost use Rattle.text_parts.specs.Lines.{lines_of, rest_of, Ended, Advanced};

use crate::line::Line;
use crate::lines::Lines;

const LF: u8 = b'\n';

impl<'a> Iterator for Lines<'a> {
    type Item = Line<'a>;

    ghost next_gives = { λ before result after. MatchOption result (Ended before after) (Advanced before after) };

    ghost remaining = { item_count (λ lines. lines_of (rest_of lines)) };

    /// The next line, with its LF if it has one; none after the last.
    fn next(&mut self) -> Option<Line<'a>> {
        let bytes = self.rest.split_inclusive(|byte| *byte == LF).next()?;
        *self = Lines {
            rest: &self.rest[bytes.len()..],
            taken: self.taken + 1,
        };
        Some(Line {
            bytes,
            number: self.taken,
        })
    }
}
