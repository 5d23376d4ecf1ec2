//! Totals by hand, at the edges of what an account takes.

use super::*;
use account::Account;
use bands::FIGURE_LIMIT;
use quantity::Power;

/// The total and the refusals when a figure is added so many times, within so many turns, under a ceiling of 10 units.
fn repeated(figure: i64, times: u32, turns: u64) -> Option<(i64, u32)> {
    let ceiling = Ceiling::new(Power::from_units(10))?;
    let mut client = Repeater::new(Power::from_units(figure), times);
    let total = follow_ceiling(&mut client, ceiling, turns);
    Some((total.units(), client.refused()))
}

#[test]
fn an_account_takes_fifteen_figures(rt: HostRuntime) {
    assert_eq!(rt; repeated(13, 14, 100), Some((42, 0)));
    assert_eq!(rt; repeated(13, 15, 100), Some((45, 0)));
    assert_eq!(rt; repeated(13, 20, 100), Some((45, 5)));
    assert_eq!(rt; repeated(13, 20, 4), Some((12, 0)));
    assert_eq!(rt; repeated(13, 0, 100), Some((0, 0)));
    assert_eq!(rt; repeated(-13, 3, 100), Some((0, 0)));
    assert_eq!(rt; repeated(FIGURE_LIMIT, 1, 1), Some((FIGURE_LIMIT - 10, 0)));
    assert_eq!(rt; repeated(FIGURE_LIMIT + 1, 3, 100), Some((0, 3)));
    assert_eq!(rt; repeated(-FIGURE_LIMIT - 1, 3, 100), Some((0, 3)));
}

/// The total of 13 under a ceiling of 10 and of 8 under a ceiling of 5.
fn replaced() -> Option<i64> {
    let mut account = Account::new(Ceiling::new(Power::from_units(10))?);
    let _ = account.add(Power::from_units(13));
    account.replace(Ceiling::new(Power::from_units(5))?);
    let _ = account.add(Power::from_units(8));
    Some(account.total().units())
}

#[test]
fn a_rule_judges_the_figures_after_it(rt: HostRuntime) {
    assert_eq!(rt; replaced(), Some(6));
}
