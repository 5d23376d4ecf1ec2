//! Whole numbers from one up to a limit.

ghost use Rattle.std.specs.Prelude.{◌≡◌, ◌<◌, ◌≤◌, MatchOption};

/// A whole number from 1 to MOST. Durations and divisors are of this kind, and so are days and counts of groups.
#[derive(Clone, Copy)]
pub struct UpTo<const MOST: u64> {
    pub(crate) number: u64,
    ghost some: { 0 < number },
    ghost most: { number ≤ MOST },
}

impl<const MOST: u64> UpTo<MOST> {
    /// None where the number is zero or above the limit.
    pub fn new(number: u64) -> Option<UpTo<MOST>>
        ensures { MatchOption result (0 < number → number ≤ MOST → ⊥) (λ n. n.number ≡ number) }
    {
        if number == 0 || number > MOST {
            return None;
        }
        Some(UpTo { number })
    }

    pub fn number(self) -> u64
        ensures value { result ≡ self.entry.number }
        ensures some { 0 < result }
        ensures most { result ≤ MOST }
    {
        self.number
    }
}
