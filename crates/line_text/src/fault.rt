//! Faults of a line.

ghost use Rattle.std.specs.Prelude.{◌≡◌, ◌++◌, Some, codes, decimal};
ghost use Rattle.quantity.specs.Refusals.{number_of};
ghost use Rattle.quantity.specs.declared.refusal.Refusal.TheVariants.{NotInForm, NotALine};

use quantity::Refusal;
use std::error::Error;
use std::fmt;

/// Why a line is not taken, and the column where, counted from 1; 0 is the formats' number for the line as a whole.
#[derive(Clone, Copy, PartialEq, Eq, Debug)]
pub struct LineFault {
    pub refusal: Refusal,
    pub column: usize,
}

impl LineFault {
    /// The letter or the length fits no line.
    pub fn not_a_line() -> LineFault
        ensures { result ≡ record { refusal = NotALine; column = 1 } }
    {
        LineFault {
            refusal: Refusal::NotALine,
            column: 1,
        }
    }

    /// The field that begins at this column is not in its form.
    pub fn not_in_form(column: usize) -> LineFault
        ensures { result ≡ record { refusal = NotInForm; column = column } }
    {
        LineFault {
            refusal: Refusal::NotInForm,
            column,
        }
    }
}

impl fmt::Display for LineFault {
    ghost output = { λ fault. Some (codes "column " ++ (decimal fault.column
        ++ (codes ": refused with " ++ decimal (number_of fault.refusal)))) };

    fn fmt<W: fmt::Write>(&self, f: &mut fmt::Formatter<W>) -> fmt::Result {
        let column = self.column;
        let number = self.refusal.number();
        write!(f, "column {column}: refused with {number}")
    }
}

impl Error for LineFault {}
