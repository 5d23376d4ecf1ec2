//! Judges a quarter hour, minute by minute: requests, tolerance bands, realised power and distances, and the totals.
//!
//! Standard input has a line of terms and then two lines for each of fifteen minutes, in order: a request with its
//! samples, and what the pool gave. Standard output gets a row for each minute and a line for each total. A line that is
//! not taken ends the program with its place on standard error.

#![tactic(auto)]

mod input;
mod judge;
mod output;
mod replay;

use input::Input;
use judge::Judge;

/// The minutes of a quarter hour.
pub(crate) const MINUTES: u8 = 15;

/// Reads, judges and writes the quarter hour.
fn run(rt: &HostRuntime) -> anyhow::Result<()> {
    let mut input = Input::new(rt)?;
    let mut judge = Judge::new(input.terms()?);
    for minute in 0..MINUTES {
        let request = input.request(minute)?;
        let given = input.given()?;
        let judged = judge
            .minute(request, given)
            .map_err(|why| input.refused(why))?;
        println!(rt; "{minute:2} {judged}")?;
    }
    let totals = judge.totals();
    println!(rt; "{totals}")?;
    Ok(())
}

fn main(rt: HostRuntime) -> anyhow::Result<()> {
    run(&rt)
}
