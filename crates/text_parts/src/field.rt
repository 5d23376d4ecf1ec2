//! A field, and where it stands.

ghost use Rattle.std.specs.Prelude.{◌≡◌};

/// A field: its bytes as a part of the text, the line that it stands in and its first column, both from 1.
#[derive(Clone, Copy)]
pub struct Field<'a> {
    pub(crate) bytes: &'a [u8],
    pub(crate) line: usize,
    pub(crate) column: usize,
}

impl<'a> Field<'a> {
    /// Its bytes.
    pub fn bytes(&self) -> &'a [u8]
        ensures { result.now ≡ self.now.bytes.now }
    {
        self.bytes
    }

    /// The line that it stands in, from 1.
    pub fn line(&self) -> usize
        ensures { result ≡ self.now.line }
    {
        self.line
    }

    /// Its first column, from 1.
    pub fn column(&self) -> usize
        ensures { result ≡ self.now.column }
    {
        self.column
    }
}
