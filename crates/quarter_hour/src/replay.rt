//! Minutes that are judged one after another through the calls of an account.

ghost use Rattle.std.specs.Prelude.{◌≡◌, []};
ghost use Rattle.account.specs.Histories.{Followed};
ghost use Rattle.quarter_hour.specs.Replays.{Heard, Chose, minutes_after};

use crate::MINUTES;
use account::{AccountClient, Answer, Call, follow};
use arrayvec::ArrayVec;
use bands::BandRule;
use quantity::Power;
use std::default::MadeWith;

/// Room for each minute of a quarter hour, as a constant, in which no `From` is called.
const ROOM: usize = MINUTES as usize;

/// A minute that an account judges: a figure, and the rule that it meets.
#[derive(Clone, Copy)]
struct Minute<R> {
    rule: R,
    figure: Power,
}

/// An unused place of the list holds this.
impl<R> MadeWith<R> for Minute<R> {
    fn made_with(rule: R) -> Minute<R> {
        Minute {
            rule,
            figure: Power::from_units(0),
        }
    }
}

/// The next call to make, of the minute at a place.
#[derive(Clone, Copy)]
enum Next {
    Rule(usize),
    Figure(usize),
}

/// Minutes, and how far an account was told of them. The list keeps a rule for its unused places, which judges none.
#[derive(Drop)]
pub(crate) struct Replay<R> {
    minutes: ArrayVec<Minute<R>, ROOM, R>,
    next: Next,
}

impl<R: Copy> Replay<R> {
    /// No minutes yet.
    pub(crate) fn new(rule: R) -> Replay<R>
        ensures { Heard [] result }
    {
        Replay {
            minutes: ArrayVec::new_in(rule),
            next: Next::Rule(0),
        }
    }

    /// One minute more, where there is room.
    pub(crate) fn push(&mut self, rule: R, figure: Power)
        ensures { self.new ≡ minutes_after self.old rule figure }
    {
        let _ = self.minutes.try_push(Minute { rule, figure });
    }
}

impl<R: Copy> AccountClient<R> for Replay<R> {
    ghost told = { Heard };

    ghost chose = { Chose };

    fn choose(&mut self) -> Option<Call<R>> {
        match self.next {
            Next::Rule(at) => {
                let minute = self.minutes.get(at)?;
                self.next = Next::Figure(at);
                Some(Call::Replace(minute.rule))
            }
            Next::Figure(at) => {
                let minute = self.minutes.get(at)?;
                self.next = Next::Rule(at + 1);
                Some(Call::Add(minute.figure))
            }
        }
    }

    fn note(&mut self, _answer: Answer) {}
}

/// More turns than the minutes can take.
const TURNS: u64 = 100;

impl<R: BandRule + Copy + Drop> Replay<R> {
    /// The total of a new account that judges the minutes from the first: the least change that brings their figures
    /// inside their bands.
    pub(crate) fn total(&mut self, rule: R) -> Power
        ensures { Followed R.BandRule.lowest R.BandRule.highest Heard Chose rule 100 self.new result.units }
    {
        self.next = Next::Rule(0);
        follow(self, rule, TURNS)
    }
}
