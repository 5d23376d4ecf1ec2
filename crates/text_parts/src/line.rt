//! A line, its number, and its fields.

ghost use Rattle.std.specs.Prelude.{◌≡◌, MatchOption};
ghost use Rattle.text_parts.specs.Fields.{Stands, Cut};

use crate::field::Field;

/// A line of a text, its LF included if it has one, and its number from 1.
#[derive(Clone, Copy)]
pub struct Line<'a> {
    pub(crate) bytes: &'a [u8],
    pub(crate) number: usize,
}

impl<'a> Line<'a> {
    /// Its bytes, with its LF if it has one.
    pub fn bytes(&self) -> &'a [u8]
        ensures { result.now ≡ self.now.bytes.now }
    {
        self.bytes
    }

    /// Its number, from 1.
    pub fn number(&self) -> usize
        ensures { result ≡ self.now.number }
    {
        self.number
    }

    /// Some columns of the line as a field; none where the line has not all of them.
    pub fn field(&self, column: usize, columns: usize) -> Option<Field<'a>>
        ensures { MatchOption result (¬ Stands column columns self.now) (Cut column columns self.now) }
    {
        let past = column.checked_sub(1)?;
        let bytes = self.bytes.get(past..)?.get(..columns)?;
        Some(Field {
            bytes,
            line: self.number,
            column,
        })
    }
}
