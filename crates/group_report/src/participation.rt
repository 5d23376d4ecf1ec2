//! Participations.

ghost use Rattle.std.specs.Prelude.{◌≡◌, Ok};
ghost use Rattle.std.specs.List.{list_all};
ghost use Rattle.quantity.specs.Refusals.{Answers};
ghost use Rattle.group_report.specs.Participations.{readable, sampled, samples_refusal, after_sample, participation_of, is_whole, OnThroughout};

use quantity::Refusal;

/// The status samples of a minute: one each two seconds.
pub const STATUS_SAMPLES: usize = 30;

/// The participation of a group in a service during a minute, as far as its status samples have come.
#[derive(Clone, Copy, PartialEq, Eq, Debug)]
pub enum Participation {
    /// No sample has come.
    Untouched,
    /// The signal was on in every sample.
    Whole,
    /// The signal was off or lost in some sample.
    Broken,
}

impl Participation {
    /// The participation of a minute, from its samples: `1` where the signal was on, `0` off and `-` lost. Refuses (10)
    /// unless there are thirty of these.
    pub fn of_samples(samples: &[u8]) -> Result<Participation, Refusal>
        ensures value { Answers (samples_refusal samples.now) (λ p. p ≡ participation_of samples.now) result }
        ensures whole_minute { (result ≡ Ok Participation.Whole → OnThroughout samples.now) × (OnThroughout samples.now → result ≡ Ok Participation.Whole) }
    {
        if !is_sampled(samples) {
            return Err(Refusal::StatusNotReadable);
        }
        Ok(after(samples))
    }

    /// Whether the group takes part: its signal was on the whole minute.
    pub fn takes_part(self) -> bool
        ensures { result ≡ is_whole self }
    {
        matches!(self, Participation::Whole)
    }

    /// Takes in one more sample: the first `1` makes the participation whole, and anything else breaks it for good.
    fn observe(&mut self, sample: u8)
        ensures { self.new ≡ after_sample self.old sample }
    {
        *self = match (*self, char::from(sample)) {
            (Participation::Untouched, '1') => Participation::Whole,
            (Participation::Whole, '1') => Participation::Whole,
            _ => Participation::Broken,
        };
    }
}

/// The participation after all these samples.
fn after(samples: &[u8]) -> Participation
    ensures { result ≡ participation_of samples.now }
{
    let mut participation = Participation::Untouched;
    for sample in samples {
        participation.observe(*sample);
    }
    participation
}

/// Whether these are the status samples of a minute: thirty, each readable.
fn is_sampled(samples: &[u8]) -> bool
    ensures { result ≡ sampled samples.now }
{
    samples.len() == STATUS_SAMPLES && are_readable(samples)
}

/// Whether each sample is one of the three characters.
fn are_readable(samples: &[u8]) -> bool
    ensures { result ≡ list_all readable samples.now }
{
    samples.iter().all(|sample| is_readable(*sample))
}

/// Whether a sample says that the signal was on, off or lost.
fn is_readable(sample: u8) -> bool
    ensures { result ≡ readable sample }
{
    matches!(char::from(sample), '1' | '0' | '-')
}
