//! What the program writes.

use crate::judge::{Judged, Totals};
use activation::Direction;
use bands::BandRule;
use figure_text::{COLUMNS, write_figure};
use quantity::Power;
use std::{fmt, str};

/// A power, written as a figure.
#[derive(Clone, Copy)]
struct Figure(Power);

impl fmt::Display for Figure {
    fn fmt<W: fmt::Write>(&self, f: &mut fmt::Formatter<W>) -> fmt::Result {
        let mut text = [b' '; COLUMNS];
        write_figure(self.0.units(), &mut text).map_err(|_| fmt::Error)?;
        f.write_str(str::from_utf8(&text).map_err(|_| fmt::Error)?)
    }
}

/// The direction of a request in a word.
// Not `Display`: the words are this program's, and a struct round the direction to give it them would be longer.
fn name(direction: Direction) -> &'static str {
    match direction {
        Direction::Upward => "upward",
        Direction::Downward => "downward",
        Direction::Neither => "neither",
    }
}

/// The row of a minute: its request and direction, both ends of its band, realised power and distance.
impl fmt::Display for Judged {
    fn fmt<W: fmt::Write>(&self, f: &mut fmt::Formatter<W>) -> fmt::Result {
        let request = Figure(self.request.power());
        let direction = name(self.request.direction());
        let low = Figure(self.band.low().ok_or(fmt::Error)?.quantity());
        let high = Figure(self.band.high().ok_or(fmt::Error)?.quantity());
        let realised = Figure(self.realised);
        let distance = Figure(self.distance);
        write!(
            f,
            "{request} {direction:8} {low} {high} {realised} {distance}"
        )
    }
}

/// A line for each total.
impl fmt::Display for Totals {
    fn fmt<W: fmt::Write>(&self, f: &mut fmt::Formatter<W>) -> fmt::Result {
        let missing = Figure(self.missing);
        let upward = Figure(self.upward);
        let downward = Figure(self.downward);
        write!(f, "M  {missing}\nD+ {upward}\nD- {downward}")
    }
}
