//! The one search.

ghost use Rattle.std.specs.Prelude.{◌≡◌, not, length, MatchOption};
ghost use Rattle.bands.specs.Orders.{FirstForemost};

use crate::order::Order;

/// Whether a thing stands strictly before another.
fn is_before<O: Order>(thing: &O::Thing, other: &O::Thing) -> bool
    ensures { result ≡ not (O.ahead other.now thing.now) }
{
    !O::is_no_later(other, thing)
}

/// The place of the first foremost thing in a run, or none in an empty run.
pub fn first_foremost<O: Order>(run: &[O::Thing]) -> Option<usize>
    ensures { MatchOption result (length run.now ≡ 0) (λ place. FirstForemost O.ahead run.now place) }
{
    let (_, rest) = run.split_first()?;
    let mut best = 0;
    for (i, thing) in rest.iter().enumerate() {
        if is_before::<O>(thing, &run[best]) {
            best = i + 1;
        }
    }
    Some(best)
}
