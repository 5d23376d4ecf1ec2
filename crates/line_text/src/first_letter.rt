//! The letter that a line begins with.

ghost use Rattle.std.specs.Prelude.{◌≡◌};
ghost use Rattle.line_text.specs.Letters.{letter_of};

/// The character that a line begins with, if it has any.
pub fn letter(line: &[u8]) -> Option<char>
    ensures { result ≡ letter_of line.now }
{
    line.first().map(|first| char::from(*first))
}
