//! What is left of a text, line by line.

ghost use Rattle.std.specs.Prelude.{◌≡◌, ◌+◌, ◌^◌, ◌<◌, length};

/// The lines of a text, one after another; a line ends with its LF, the last one perhaps without.
#[derive(Clone, Copy)]
pub struct Lines<'a> {
    pub(crate) rest: &'a [u8],
    pub(crate) taken: usize,
    ghost counted: { taken + length rest.now < 2 ^ 63 },
}

impl<'a> Lines<'a> {
    /// The lines of a text, from the first.
    pub fn new(text: &'a [u8]) -> Lines<'a>
        ensures rest { result.rest.now ≡ text.now }
        ensures taken { result.taken ≡ 0 }
    {
        Lines {
            rest: text,
            taken: 0,
        }
    }

    /// How many lines were handed out.
    pub fn taken(&self) -> usize
        ensures { result ≡ self.now.taken }
    {
        self.taken
    }
}
