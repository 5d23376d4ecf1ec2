//! A client that adds one figure again and again.

ghost use Rattle.std.specs.Prelude.{◌≡◌, []};
ghost use Rattle.account.specs.Histories.{Followed};
ghost use Rattle.ceiling.specs.Repeats.{Heard, Chose, low_of, high_of};

use crate::rule::Ceiling;
use account::{AccountClient, Answer, Call, follow};
use quantity::Power;

/// Adds a figure a planned number of times, and counts what is refused.
#[derive(Clone, Copy)]
pub struct Repeater {
    figure: Power,
    planned: u32,
    left: u32,
    refusals: u32,
}

impl Repeater {
    pub fn new(figure: Power, planned: u32) -> Repeater
        ensures { Heard [] result }
    {
        Repeater {
            figure,
            planned,
            left: planned,
            refusals: 0,
        }
    }

    /// How many additions were refused.
    pub fn refused(&self) -> u32
        ensures { result ≡ self.now.refusals }
    {
        self.refusals
    }
}

impl AccountClient<Ceiling> for Repeater {
    ghost told = { Heard };

    ghost chose = { Chose };

    fn choose(&mut self) -> Option<Call<Ceiling>> {
        self.left = self.left.checked_sub(1)?;
        Some(Call::Add(self.figure))
    }

    fn note(&mut self, answer: Answer) {
        if let Answer::Refused(_) = answer {
            let refusals = &mut self.refusals;
            *refusals = refusals.saturating_add(1);
        }
    }
}

/// A new account with a ceiling, followed through the client's calls.
pub fn follow_ceiling(client: &mut Repeater, ceiling: Ceiling, turns: u64) -> Power
    ensures { Heard [] client.old → Followed low_of high_of Heard Chose ceiling turns client.new result.units }
{
    follow(client, ceiling, turns)
}
