//! The edges of every range, both signs, and a half both ways.

use super::*;

fn rounded(n: i64, d: u64) -> Option<i64> {
    match Divisor::new(d) {
        Some(d) => Some(round_quotient(n, d)),
        None => None,
    }
}

#[test]
fn halves_go_away_from_zero(rt: HostRuntime) {
    let table = [
        (0, 7, 0),
        (1, 2, 1),
        (-1, 2, -1),
        (5, 2, 3),
        (-5, 2, -3),
        (1, 3, 0),
        (2, 3, 1),
        (-2, 3, -1),
        (14, 30, 0),
        (15, 30, 1),
        (-15, 30, -1),
        (i64::MAX, 1, i64::MAX),
        (i64::MIN, 1, i64::MIN),
        (i64::MAX, 2, 4_611_686_018_427_387_904),
        (i64::MIN, 2, -4_611_686_018_427_387_904),
    ];
    for (n, d, expected) in table {
        assert_eq!(rt; rounded(n, d), Some(expected));
    }
    assert_eq!(rt; rounded(1, 0), None);
}

fn lasting(units: i64, minutes: u64) -> Option<i64> {
    match Minutes::new(minutes) {
        Some(time) => Some(Power::from_units(units).lasting(time).units()),
        None => None,
    }
}

fn spread(units: i64, minutes: u64) -> Option<i64> {
    let time = Minutes::new(minutes)?;
    match Energy::from_units(units).spread_over(time) {
        Some(power) => Some(power.units()),
        None => None,
    }
}

#[test]
fn a_power_becomes_an_energy_by_its_minutes(rt: HostRuntime) {
    assert_eq!(rt; lasting(29, 1), Some(0));
    assert_eq!(rt; lasting(30, 1), Some(1));
    assert_eq!(rt; lasting(-30, 1), Some(-1));
    assert_eq!(rt; lasting(40_000_000_000, 15), Some(10_000_000_000));
    assert_eq!(rt; lasting(i64::MAX, 60), Some(i64::MAX));
    assert_eq!(rt; lasting(i64::MIN, 60), Some(i64::MIN));
    assert_eq!(rt; lasting(1, 0), None);
    assert_eq!(rt; lasting(1, 61), None);
}

#[test]
fn an_energy_becomes_a_power_by_its_minutes(rt: HostRuntime) {
    assert_eq!(rt; spread(500_000_000, 1), Some(30_000_000_000));
    assert_eq!(rt; spread(-1_000_000_000_000, 1), Some(-60_000_000_000_000));
    assert_eq!(rt; spread(1, 40), Some(2));
    assert_eq!(rt; spread(-1, 40), Some(-2));
    assert_eq!(rt; spread(i64::MAX, 60), Some(i64::MAX));
    assert_eq!(rt; spread(i64::MIN, 60), Some(i64::MIN));
    assert_eq!(rt; spread(i64::MAX, 59), None);
    assert_eq!(rt; spread(i64::MIN, 59), None);
}

fn share(deviation: i64, activated: i64) -> Option<i64> {
    let deviation = DeviationEnergy::new(Energy::from_units(deviation))?;
    let activated = ActivatedEnergy::new(Energy::from_units(activated))?;
    Some(deviation.share_of(activated).units())
}

#[test]
fn a_share_is_rounded_at_its_tenth_decimal(rt: HostRuntime) {
    let table = [
        (10_000_000_000, 30_000_000_000, 333_333_333_333),
        (20_000_000_000, 30_000_000_000, 666_666_666_667),
        (30_000_000_000, 30_000_000_000, 1_000_000_000_000),
        (30_000_000_000, 0, 0),
        (0, 0, 0),
        (0, 1, 0),
        (1, 2_000_000_000_000, 1),
        (1, 2_000_000_000_002, 0),
        (24_999_999_999_999, 25_000_000_000_000, 1_000_000_000_000),
        (i64::MAX, 1, 1_000_000_000_000),
    ];
    for (deviation, activated, expected) in table {
        assert_eq!(rt; share(deviation, activated), Some(expected));
    }
    assert_eq!(rt; share(-1, 1), None);
    assert_eq!(rt; share(1, -1), None);
    assert_eq!(rt; share(1, 25_000_000_000_001), None);
}

#[test]
fn limits_are_included(rt: HostRuntime) {
    assert!(rt; all_within(&[-3, 0, 5], -3, 5));
    assert!(rt; !all_within(&[-4, 0, 5], -3, 5));
    assert!(rt; !all_within(&[-3, 0, 6], -3, 5));
    assert!(rt; all_within(&[], 1, 0));
    assert!(rt; !all_within(&[0], 1, 0));
    assert_eq!(rt; total(&[i64::MIN, i64::MIN]), -18_446_744_073_709_551_616);
    assert_eq!(rt; total(&[i64::MAX, 1, -5]), 9_223_372_036_854_775_803);
    assert_eq!(rt; total(&[]), 0);
}

#[test]
fn each_refusal_has_its_number(rt: HostRuntime) {
    assert_eq!(rt; Refusal::OutOfRange.number(), 11);
    assert_eq!(rt; Refusal::PlaceTaken.number(), 12);
    assert_eq!(rt; Refusal::BufferTooShort.number(), 16);
    assert_eq!(rt; Refusal::NotInForm.number(), 17);
    assert_eq!(rt; Refusal::NotALine.number(), 18);
}

#[test]
fn the_other_refusals_have_their_numbers(rt: HostRuntime) {
    assert_eq!(rt; Refusal::TermsOutOfRange.number(), 7);
    assert_eq!(rt; Refusal::StatusNotReadable.number(), 10);
    assert_eq!(rt; Refusal::BlockNotFull.number(), 15);
    assert_eq!(rt; Refusal::NotInTurn.number(), 19);
}
