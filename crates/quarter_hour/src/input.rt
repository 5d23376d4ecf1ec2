//! What the program reads.

ghost use Rattle.std.specs.Prelude.{◌≤◌};

use crate::judge::{Given, Terms};
use activation::ActivationRequest;
use anyhow::ensure;
use bands::{Allowance, BidSum, Floor};
use call_lines::{LineFault, read_request_line};
use figure_text::{COLUMNS, read_row};
use line_text::{is_whole, letter};
use quantity::{Power, Refusal};
use std::error::Error;
use std::fmt;
use std::io::{self, BufRead, BufReader, Stdin};

/// The figures of the terms: procured reserve, the sums of upward and of downward bids, six requests.
const TERMS: usize = 9;

/// The figures of what the pool gave: offered reserve and realised power.
const GIVEN: usize = 2;

/// A line that is not taken, and why: a fault of the line, or at column 0 that a call refused what it says.
#[derive(Clone, Copy, Debug)]
pub(crate) struct BadLine {
    line: u32,
    fault: LineFault,
}

impl fmt::Display for BadLine {
    fn fmt<W: fmt::Write>(&self, f: &mut fmt::Formatter<W>) -> fmt::Result {
        let line = self.line;
        let fault = self.fault;
        write!(f, "line {line}, {fault}")
    }
}

impl Error for BadLine {}

/// Standard input, line by line.
#[derive(Drop)]
pub(crate) struct Input {
    from: BufReader<Stdin>,
    line: Vec<u8>,
    count: u32,
}

/// Reads the figures of a line that has a letter, just so many figures and LF.
fn read_figures(line: &[u8], kind: char, figures: &mut [i64]) -> Result<(), LineFault> {
    let length = COLUMNS.saturating_mul(figures.len()).saturating_add(2);
    if letter(line) != Some(kind) || !is_whole(line, length) {
        return Err(LineFault::not_a_line());
    }
    read_row(&line[1..], figures).map_err(|k| LineFault::not_in_form(
        COLUMNS.saturating_mul(k).saturating_add(2),
    ))
}

/// The terms that nine figures give, or none where one is out of its range.
fn terms_of(figures: [Power; TERMS]) -> Option<Terms> {
    // Six names for the requests: that `rest @ ..` holds them is not proved.
    let [procured, upward, downward, a, b, c, d, e, f] = figures;
    Some(Terms {
        floor: Floor::new(procured)?,
        allowance: Allowance::of_bids(BidSum::new(upward)?, BidSum::new(downward)?),
        before: [a, b, c, d, e, f]
            // The library's `try_map` takes a `Result` alone.
            .try_map(|power| ActivationRequest::new(power).ok_or(()))
            .ok()?,
    })
}

impl Input {
    pub(crate) fn new(rt: &HostRuntime) -> io::Result<Input> {
        let heap = rt.alloc();
        Ok(Input {
            from: BufReader::new(heap, rt.stdin())?,
            line: Vec::new(heap),
            count: 0,
        })
    }

    /// Goes on to the next line.
    fn advance(&mut self) -> io::Result<()> {
        self.line.clear();
        self.count = self.count.saturating_add(1);
        self.from.read_until(b'\n', &mut self.line)?;
        Ok(())
    }

    /// What is said of a line that is not taken.
    fn fault(&self, fault: LineFault) -> BadLine {
        BadLine {
            line: self.count,
            fault,
        }
    }

    /// What is said of a line whose figures a call refused.
    pub(crate) fn refused(&self, refusal: Refusal) -> BadLine {
        self.fault(LineFault { refusal, column: 0 })
    }

    /// Reads a line of a letter and figures.
    fn figures<const N: usize>(&mut self, kind: char) -> anyhow::Result<[Power; N]>
        requires { N ≤ 9 }
    {
        self.advance()?;
        let mut figures = [0; N];
        read_figures(self.line.as_slice(), kind, &mut figures).map_err(|fault| self.fault(fault))?;
        Ok(figures.map(Power::from_units))
    }

    /// Reads the line of terms.
    pub(crate) fn terms(&mut self) -> anyhow::Result<Terms> {
        let figures = self.figures::<TERMS>('B')?;
        Ok(terms_of(figures).ok_or(self.refused(Refusal::OutOfRange))?)
    }

    /// Reads the request of a minute.
    pub(crate) fn request(&mut self, minute: u8) -> anyhow::Result<ActivationRequest> {
        self.advance()?;
        let line = read_request_line(self.line.as_slice()).map_err(|fault| self.fault(fault))?;
        ensure!(line.minute() == minute, "the minutes are not in order");
        Ok(ActivationRequest::of_samples(line.upward(), line.downward()).map_err(|why| self.refused(
            why,
        ))?)
    }

    /// Reads what the pool gave in a minute.
    pub(crate) fn given(&mut self) -> anyhow::Result<Given> {
        let [offered, realised] = self.figures::<GIVEN>('R')?;
        Ok(Given { offered, realised })
    }
}
