//! The length of a delivery day.

ghost use Rattle.std.specs.Prelude.{◌≡◌, MatchOption};
ghost use Rattle.statement_lines.specs.Openings.{quarter_hours_of, OtherLength};

/// How many quarter hours a delivery day has.
#[derive(Clone, Copy, PartialEq, Eq, Debug)]
pub enum DayLength {
    /// An hour is left out where the clocks go forward.
    Short = 92,
    /// As most days are.
    Ordinary = 96,
    /// An hour comes twice where the clocks go back.
    Long = 100,
}

impl DayLength {
    /// The length of a day with so many quarter hours, where there is such a day.
    // Not `TryFrom`: like each type with limits here it answers none, and an error would say no more.
    pub fn new(quarter_hours: u64) -> Option<DayLength>
        ensures { MatchOption result (OtherLength quarter_hours) (λ length. quarter_hours_of length ≡ quarter_hours) }
    {
        match quarter_hours {
            92 => Some(DayLength::Short),
            96 => Some(DayLength::Ordinary),
            100 => Some(DayLength::Long),
            _ => None,
        }
    }

    pub fn quarter_hours(self) -> u64
        ensures { result ≡ quarter_hours_of self }
    {
        self as u64
    }
}
