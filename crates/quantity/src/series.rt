//! Series of figures.

ghost use Rattle.std.specs.Prelude.{◌≡◌};
ghost use Rattle.std.specs.List.{list_all};
ghost use Rattle.quantity.specs.Series.{within, total as total_of};

/// Whether a figure lies from low to high, both included.
pub fn is_within(figure: i64, low: i64, high: i64) -> bool
    ensures { result ≡ within low high figure }
{
    low <= figure && figure <= high
}

/// Whether each figure lies from low to high, both included.
pub fn all_within(figures: &[i64], low: i64, high: i64) -> bool
    ensures { result ≡ list_all (within low high) figures.now }
{
    figures.iter().all(|figure| is_within(*figure, low, high))
}

/// What the figures come to; 128 bits hold the sum of any slice.
pub fn total(figures: &[i64]) -> i128
    ensures { result ≡ total_of figures.now }
{
    let mut sum: i128 = 0;
    for figure in figures {
        sum += i128::from(*figure);
    }
    sum
}
