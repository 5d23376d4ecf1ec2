//! Terms at both sides of every limit.

use super::*;
use quantity::{Energy, POWER_LIMIT, Power, Refusal};

/// The most that a quarter hour can activate: 10,000 MW throughout.
const ACTIVATION_LIMIT: i64 = POWER_LIMIT / 4;

fn terms(
    procured: i64,
    upward: &[i64],
    downward: &[i64],
    raised: i64,
    lowered: i64,
) -> Result<IntervalTerms, Refusal> {
    let raised = Energy::from_units(raised);
    let lowered = Energy::from_units(lowered);
    IntervalTerms::new(
        Power::from_units(procured),
        upward,
        downward,
        raised,
        lowered,
    )
}

/// The number of the refusal, or 0.
fn refused(terms: Result<IntervalTerms, Refusal>) -> u8 {
    match terms {
        Ok(_) => 0,
        Err(why) => why.number(),
    }
}

#[test]
fn figures_reach_their_limits_and_no_further(rt: HostRuntime) {
    let table = [
        (0, 0, 0, 0),
        (POWER_LIMIT, ACTIVATION_LIMIT, -ACTIVATION_LIMIT, 0),
        (-1, 0, 0, 7),
        (POWER_LIMIT + 1, 0, 0, 7),
        (0, -1, 0, 7),
        (0, ACTIVATION_LIMIT + 1, 0, 7),
        (0, 0, 1, 7),
        (0, 0, -ACTIVATION_LIMIT - 1, 7),
        (0, 0, i64::MIN, 7),
        (i64::MAX, i64::MAX, i64::MAX, 7),
    ];
    for (procured, raised, lowered, number) in table {
        assert_eq!(rt; refused(terms(procured, &[], &[], raised, lowered)), number);
    }
}

/// The refusal of upward and of downward bids.
fn both_ways(bids: &[i64]) -> (u8, u8) {
    (
        refused(terms(0, bids, &[], 0, 0)),
        refused(terms(0, &[], bids, 0, 0)),
    )
}

#[test]
fn bids_are_above_zero_and_come_to_the_limit_at_most(rt: HostRuntime) {
    assert_eq!(rt; both_ways(&[1]), (0, 0));
    assert_eq!(rt; both_ways(&[0]), (7, 7));
    assert_eq!(rt; both_ways(&[5, -1, 5]), (7, 7));
    assert_eq!(rt; both_ways(&[POWER_LIMIT]), (0, 0));
    assert_eq!(rt; both_ways(&[POWER_LIMIT + 1]), (7, 7));
    assert_eq!(rt; both_ways(&[POWER_LIMIT - 1, 1]), (0, 0));
    assert_eq!(rt; both_ways(&[POWER_LIMIT - 1, 2]), (7, 7));
    assert_eq!(rt; both_ways(&[1, i64::MAX, i64::MIN]), (7, 7));
}

#[test]
fn at_most_thirty_two_bids_are_accepted(rt: HostRuntime) {
    assert_eq!(rt; both_ways(&[1; MOST_BIDS]), (0, 0));
    assert_eq!(rt; both_ways(&[1; MOST_BIDS + 1]), (7, 7));
    assert_eq!(rt; both_ways(&[POWER_LIMIT / 32; MOST_BIDS]), (0, 0));
}

/// The allowance and the sizes of the activated energies.
fn told(upward: &[i64], downward: &[i64], raised: i64, lowered: i64) -> Option<(i64, i64, i64)> {
    let terms = terms(0, upward, downward, raised, lowered).ok()?;
    let raised = terms.upward_activated().quantity().units();
    let lowered = terms.downward_activated().quantity().units();
    Some((terms.allowance().power().units(), raised, lowered))
}

#[test]
fn bids_give_their_allowance_and_energies_their_size(rt: HostRuntime) {
    assert_eq!(rt; told(&[], &[], 0, 0), Some((0, 0, 0)));
    assert_eq!(rt; told(&[20, 30], &[40], 7, 0), Some((5, 7, 0)));
    assert_eq!(rt; told(&[20, 30], &[40, 20], 0, -7), Some((6, 0, 7)));
    assert_eq!(rt; told(&[20, 24], &[], 1, -2), Some((4, 1, 2)));
    assert_eq!(rt; told(&[20, 25], &[], 1, -2), Some((5, 1, 2)));
}
