//! Why a call is refused. One enum serves the whole library; each case has the number that the rules give it.

ghost use Rattle.std.specs.Prelude.{◌≡◌};
ghost use Rattle.quantity.specs.Refusals.{number_of, NumbersDiffer};

#[derive(Clone, Copy, PartialEq, Eq, Debug)]
pub enum Refusal {
    /// The terms of a quarter hour lie outside their limits.
    TermsOutOfRange = 7,
    /// The status samples of a minute are not thirty readable ones.
    StatusNotReadable = 10,
    /// A figure or a count lies outside its limits, or a list has not its length.
    OutOfRange = 11,
    /// The place is taken: an account has its fifteen figures.
    PlaceTaken = 12,
    /// Less than a block of text is pending.
    BlockNotFull = 15,
    /// The caller's buffer is shorter than what is to be written.
    BufferTooShort = 16,
    /// A text is not in the form of what it should hold.
    NotInForm = 17,
    /// The letter or the length of a line fits no line.
    NotALine = 18,
    /// A line that does not come here.
    NotInTurn = 19,
}

impl Refusal {
    /// The number by which the rules, the statements and the people who read them know this refusal.
    pub fn number(self) -> u8
        ensures value { result ≡ number_of self }
        ensures unique { NumbersDiffer }
    {
        self as u8
    }
}
