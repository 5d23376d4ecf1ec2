//! Faults of a text.

ghost use Rattle.std.specs.Prelude.{◌≡◌, ◌++◌, Some, codes, decimal};
ghost use Rattle.quantity.specs.Refusals.{number_of};

use line_text::LineFault;
use quantity::Refusal;
use std::error::Error;
use std::fmt;

/// Why a text is not taken, and where: the line and the column, both from 1; column 0 where it is the whole line or its place.
// Column 0 is no `None`: it is the number by which the formats know such a fault.
#[derive(Clone, Copy, PartialEq, Eq, Debug)]
pub struct TextFault {
    pub refusal: Refusal,
    pub line: usize,
    pub column: usize,
}

impl TextFault {
    /// The fault of the line with this number.
    pub(crate) fn in_line(line: usize, fault: LineFault) -> TextFault
        ensures { result ≡ record { refusal = fault.refusal; line = line; column = fault.column } }
    {
        TextFault {
            refusal: fault.refusal,
            line,
            column: fault.column,
        }
    }
}

impl fmt::Display for TextFault {
    ghost output = { λ fault. Some (codes "line " ++ (decimal fault.line ++ (codes ", column " ++ (decimal fault.column
        ++ (codes ": refused with " ++ decimal (number_of fault.refusal)))))) };

    fn fmt<W: fmt::Write>(&self, f: &mut fmt::Formatter<W>) -> fmt::Result {
        let line = self.line;
        let column = self.column;
        let number = self.refusal.number();
        write!(f, "line {line}, column {column}: refused with {number}")
    }
}

impl Error for TextFault {}
