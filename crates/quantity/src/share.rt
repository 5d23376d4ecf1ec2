//! Shares.

ghost use Rattle.std.specs.Prelude.{◌≡◌};

/// A share in units of 10^-10 percent.
#[derive(Clone, Copy, PartialEq, Eq, PartialOrd, Ord, Default, Debug)]
pub struct Share {
    units: i64,
}

impl Share {
    pub fn from_units(units: i64) -> Share
        ensures { result ≡ record { units = units } }
    {
        Share { units }
    }

    pub fn units(self) -> i64
        ensures { result ≡ self.units }
    {
        self.units
    }
}
