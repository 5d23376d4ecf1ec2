//! The line of a request.

ghost use Rattle.std.specs.Prelude.{◌≡◌, take as first, drop as past, IfOk, IfErr, Ok};
ghost use Rattle.quantity.specs.Refusals.{number_of};
ghost use Rattle.line_text.specs.Faults.{Judged};
ghost use Rattle.call_lines.specs.RequestLines.{RequestIn, FirstFault, request_fault};

use activation::SAMPLES;
use count_text::Width;
use line_text::{LineFault, letter, read_numbered_row};

/// The figures of a minute: thirty upward samples, then thirty downward ones.
const FIGURES: usize = 2 * SAMPLES;

/// A minute and its samples, as a line brings them.
#[derive(Clone, Copy)]
pub struct RequestLine {
    minute: u8,
    samples: [i64; FIGURES],
}

impl RequestLine {
    /// The minute that the line names, 0 to 99.
    pub fn minute(&self) -> u8
        ensures { result ≡ self.now.minute }
    {
        self.minute
    }

    /// The first thirty figures.
    pub fn upward(&self) -> &[i64]
        ensures { result.now ≡ first 30 self.now.samples }
    {
        &self.samples[..SAMPLES]
    }

    /// The last thirty figures.
    pub fn downward(&self) -> &[i64]
        ensures { result.now ≡ first 30 (past 30 self.now.samples) }
    {
        &self.samples[SAMPLES..]
    }
}

/// Reads the line of a request.
/// Refuses another letter, then another length (18, column 1), then the first field from the left that is not in its form
/// (17, its first column).
pub fn read_request_line(line: &[u8]) -> Result<RequestLine, LineFault>
    ensures written_is_read { (q : RequestLine) → RequestIn q line.now → result ≡ Ok q }
    ensures read_is_written { IfOk result (λ q. RequestIn q line.now) }
    ensures judged { Judged (request_fault line.now) result }
    ensures first_fault { IfErr result (λ fault. FirstFault line.now (number_of fault.refusal) fault.column) }
{
    if letter(line) != Some('Q') {
        return Err(LineFault::not_a_line());
    }
    let mut samples = [0; FIGURES];
    let minute = read_numbered_row(line, Width::TWO, &mut samples)?;
    Ok(RequestLine {
        minute: minute as u8,
        samples,
    })
}
