//! Rounding: the nearest whole number, a half going away from zero.

ghost use Rattle.std.specs.Prelude.{◌≡◌, ◌+◌, ◌*◌, ◌^◌, ◌<◌, ◌≤◌, ℤ, pos, ◌*ℤ◌, nat_le, unsigned_abs};
ghost use Rattle.quantity.specs.Rounding.{nearest, rounded, Nearest};

use crate::divisor::Divisor;

/// Whether a remainder is half of its divisor or more.
fn reaches_half(rest: u128, d: u128) -> bool
    requires { rest < d }
    ensures { result ≡ nat_le d (2 * rest) }
{
    rest >= d - rest
}

/// A size, rounded from its quotient and its remainder.
pub(crate) fn round_division(whole: u128, rest: u128, d: u128) -> u128
    requires rest { rest < d }
    requires whole { whole < 2 ^ 127 }
    ensures value { result ≡ nearest (whole * d + rest) d }
    ensures bound { result ≤ whole + 1 }
{
    if reaches_half(rest, d) {
        whole + 1
    } else {
        whole
    }
}

/// The size of a quotient.
fn round_size(n: u128, d: u128) -> u128
    requires { (0 < d) × (n < 2 ^ 127) }
    ensures value { result ≡ nearest n d }
    ensures bound { result ≤ n }
{
    round_division(n / d, n % d, d)
}

/// A quotient whose dividend may be wider than a figure.
pub(crate) fn round_wide(n: i128, d: u64) -> i128
    requires { (0 < d) × (unsigned_abs n < 2 ^ 127) }
    ensures value { result ≡ rounded n d }
    ensures bound { unsigned_abs result ≤ unsigned_abs n }
{
    // No `From` changes between signs.
    let size = round_size(n.unsigned_abs(), u128::from(d)) as i128;
    if n < 0 { -size } else { size }
}

/// A figure times a count of one byte: no product is lost in 128 bits.
pub(crate) fn scaled(figure: i64, count: u64) -> i128
    requires { count < 2 ^ 8 }
    ensures value { result ≡ figure *ℤ pos count }
    ensures bound { unsigned_abs result < 2 ^ 72 }
{
    i128::from(figure) * i128::from(count)
}

/// The quotient of a figure, rounded: no other whole number is as near, but where two are, it is the farther from zero.
pub fn round_quotient(n: i64, d: Divisor) -> i64
    ensures value { result ≡ rounded n d.number }
    ensures nearest { Nearest n d.number result }
    ensures no_other { (q : ℤ) → Nearest n d.number q → q ≡ result }
{
    round_wide(i128::from(n), d.number()) as i64
}
