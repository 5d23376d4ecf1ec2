//! The digits of a number, written and read one by one.

ghost use Rattle.std.specs.Prelude.{◌≡◌, ℕ, ◌+◌, ◌-◌, ◌%◌, ◌^◌, ◌<◌, ◌≤◌, ◌⊎◌, length, take, drop, replicate, decimal, Decides, MatchOption, ◌≢◌, slice_index};
ghost use Rattle.count_text.specs.Columns.{last_digits, PlainIn, FixedIn, Reads};

use crate::width::Width;

/// How many digits a number has: the fewest columns that hold it.
pub(crate) fn digit_count(n: u64) -> usize
    ensures count { result ≡ length (decimal n) }
    ensures behind_zeros { (w : ℕ) → result ≤ w → drop (w - result) (last_digits w n) ≡ decimal n }
    ensures least { (w : ℕ) → 0 < w → (result ≤ w → n < 10 ^ w) × (n < 10 ^ w → result ≤ w) }
{
    // Not `from`: a usize is made of no u32.
    n.checked_ilog10().unwrap_or(0) as usize + 1
}

/// Writes the last digits of a number over the whole of `out`, zeros before it where it has fewer.
pub fn write_fixed(n: u64, out: &mut [u8])
    ensures { out.new ≡ last_digits (length out.old) n }
{
    let mut rest = n;
    // By index: what is written through `iter_mut().rev()` is not known behind the loop.
    for at in (0..out.len()).rev() {
        out[at] = b'0' + (rest % 10) as u8;
        rest /= 10;
    }
}

/// How many blanks a text begins with.
pub fn blanks(text: &[u8]) -> usize
    ensures within { result ≤ length text.now }
    ensures front { take result text.now ≡ replicate result 32 }
    ensures next { slice_index text.now result ≢ 32 }
{
    text.iter()
        .position(|byte| *byte != b' ')
        .unwrap_or(text.len())
}

/// The number that a text of 1 to 18 digits writes, as many as a [`Width`] may have, zeros before it included.
pub fn read_fixed(digits: &[u8]) -> Option<u64>
    ensures { Reads FixedIn digits.now result }
{
    Width::new(digits.len())?;
    let mut n = 0;
    for byte in digits {
        n = n * 10 + u64::from(char::from(*byte).to_digit(10)?);
    }
    Some(n)
}

/// The number that a text of at most 18 digits writes with no needless zero.
pub fn read_plain(digits: &[u8]) -> Option<u64>
    ensures { Reads PlainIn digits.now result }
{
    match digits {
        [b'0', _, ..] => None,
        _ => read_fixed(digits),
    }
}
