//! A quarter hour, minute by minute.

ghost use Rattle.std.specs.Prelude.{◌≡◌, [], ◌∷◌, ◌++◌, drop as past};

use crate::replay::Replay;
use activation::{ActivationRequest, Direction};
use bands::{Allowance, Floor, ToleranceBand, WINDOW, distance};
use quantity::{Power, Refusal};

/// What holds for the whole quarter hour, and the six requests before it, oldest first.
#[derive(Clone, Copy)]
pub(crate) struct Terms {
    pub(crate) floor: Floor,
    pub(crate) allowance: Allowance,
    pub(crate) before: [ActivationRequest; 6],
}

/// What the pool gave in a minute.
#[derive(Clone, Copy)]
pub(crate) struct Given {
    pub(crate) offered: Power,
    pub(crate) realised: Power,
}

/// A minute as it was judged.
#[derive(Clone, Copy)]
pub(crate) struct Judged {
    pub(crate) request: ActivationRequest,
    pub(crate) band: ToleranceBand,
    pub(crate) realised: Power,
    pub(crate) distance: Power,
}

/// The window of the newest minute, and the minutes that each account judges.
#[derive(Drop)]
pub(crate) struct Judge {
    terms: Terms,
    window: [ActivationRequest; WINDOW],
    offered: Replay<Floor>,
    upward: Replay<ToleranceBand>,
    downward: Replay<ToleranceBand>,
}

/// The totals of a quarter hour.
#[derive(Clone, Copy)]
pub(crate) struct Totals {
    /// What the offered reserve lacked.
    pub(crate) missing: Power,
    /// The deviation in upward minutes.
    pub(crate) upward: Power,
    /// The deviation in downward minutes.
    pub(crate) downward: Power,
}

/// The window one minute on: the oldest request leaves it.
fn moved_on(
    mut window: [ActivationRequest; WINDOW],
    newest: ActivationRequest,
) -> [ActivationRequest; WINDOW]
    ensures { result ≡ past 1 window ++ newest ∷ [] }
{
    window.rotate_left(1);
    window[WINDOW - 1] = newest;
    window
}

impl Judge {
    pub(crate) fn new(terms: Terms) -> Judge {
        let mut window = [terms.before[0]; WINDOW];
        window[1..].copy_from_slice(&terms.before);
        let band = ToleranceBand::over(&window, terms.allowance);
        Judge {
            terms,
            window,
            offered: Replay::new(terms.floor),
            upward: Replay::new(band),
            downward: Replay::new(band),
        }
    }

    /// Judges the next minute: offered reserve by the floor, realised power by the band of the minute's direction.
    pub(crate) fn minute(
        &mut self,
        request: ActivationRequest,
        given: Given,
    ) -> Result<Judged, Refusal> {
        let window = moved_on(self.window, request);
        let band = ToleranceBand::over(&window, self.terms.allowance);
        distance(&self.terms.floor, given.offered)?;
        let distance = distance(&band, given.realised)?;
        self.offered.push(self.terms.floor, given.offered);
        match request.direction() {
            Direction::Upward => self.upward.push(band, given.realised),
            Direction::Downward => self.downward.push(band, given.realised),
            Direction::Neither => {}
        }
        self.window = window;
        Ok(Judged {
            request,
            band,
            realised: given.realised,
            distance,
        })
    }

    /// The totals of the minutes so far, each through an account of its own.
    pub(crate) fn totals(&mut self) -> Totals {
        let band = ToleranceBand::over(&self.window, self.terms.allowance);
        Totals {
            missing: self.offered.total(self.terms.floor),
            upward: self.upward.total(band),
            downward: self.downward.total(band),
        }
    }
}
