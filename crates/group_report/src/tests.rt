//! Samples that make and break a participation, figures at the edges of their limits, and what groups come to.

use super::*;
use quantity::{Energy, POWER_LIMIT, Power, Refusal};

const ON: [u8; STATUS_SAMPLES] = [b'1'; STATUS_SAMPLES];

const OFF: [u8; STATUS_SAMPLES] = [b'0'; STATUS_SAMPLES];

const MW: i64 = 10_000_000_000;

/// On throughout, but for one sample.
fn on_but(place: usize, sample: u8) -> [u8; STATUS_SAMPLES] {
    let mut samples = ON;
    if place < STATUS_SAMPLES {
        samples[place] = sample;
    }
    samples
}

#[test]
fn a_participation_is_whole_where_the_signal_was_on_throughout(rt: HostRuntime) {
    assert_eq!(rt; Participation::of_samples(&ON), Ok(Participation::Whole));
    assert_eq!(rt; Participation::of_samples(&OFF), Ok(Participation::Broken));
    for sample in [b'0', b'-'] {
        for place in [0, 1, STATUS_SAMPLES - 1] {
            assert_eq!(rt;
                Participation::of_samples(&on_but(place, sample)),
                Ok(Participation::Broken)
            );
        }
    }
    assert!(rt; Participation::Whole.takes_part());
    assert!(rt; !Participation::Broken.takes_part());
    assert!(rt; !Participation::Untouched.takes_part());
}

#[test]
fn a_minute_has_thirty_readable_samples(rt: HostRuntime) {
    let refused = Err(Refusal::StatusNotReadable);
    assert_eq!(rt; Participation::of_samples(&ON[1..]), refused);
    assert_eq!(rt;
        Participation::of_samples(&[b'1'; STATUS_SAMPLES + 1]),
        refused
    );
    assert_eq!(rt; Participation::of_samples(&[]), refused);
    for sample in [b'2', b'/', b',', b'.', b' ', 0, 255] {
        assert_eq!(rt; Participation::of_samples(&on_but(0, sample)), refused);
        assert_eq!(rt;
            Participation::of_samples(&on_but(STATUS_SAMPLES - 1, sample)),
            refused
        );
    }
}

fn report(
    fcr: &[u8],
    afrr: &[u8],
    offered: i64,
    measured: i64,
    energy: i64,
    baseline: i64,
) -> Result<GroupReport, Refusal> {
    let offered = Power::from_units(offered);
    let measured = Power::from_units(measured);
    let baseline = Power::from_units(baseline);
    GroupReport::new(
        fcr,
        afrr,
        offered,
        measured,
        Energy::from_units(energy),
        baseline,
    )
}

/// The number of the refusal, or 0.
fn refused(report: Result<GroupReport, Refusal>) -> u8 {
    match report {
        Ok(_) => 0,
        Err(why) => why.number(),
    }
}

#[test]
fn figures_reach_their_limits_and_no_further(rt: HostRuntime) {
    let table = [
        (0, 0, 0, 0, 0),
        (POWER_LIMIT, POWER_LIMIT, ENERGY_LIMIT, POWER_LIMIT, 0),
        (0, -POWER_LIMIT, -ENERGY_LIMIT, -POWER_LIMIT, 0),
        (-1, 0, 0, 0, 11),
        (POWER_LIMIT + 1, 0, 0, 0, 11),
        (0, POWER_LIMIT + 1, 0, 0, 11),
        (0, -POWER_LIMIT - 1, 0, 0, 11),
        (0, 0, ENERGY_LIMIT + 1, 0, 11),
        (0, 0, -ENERGY_LIMIT - 1, 0, 11),
        (0, 0, 0, POWER_LIMIT + 1, 11),
        (0, 0, 0, -POWER_LIMIT - 1, 11),
        (i64::MIN, i64::MIN, i64::MIN, i64::MIN, 11),
    ];
    for (offered, measured, energy, baseline, number) in table {
        assert_eq!(rt;
            refused(report(&ON, &ON, offered, measured, energy, baseline)),
            number
        );
        assert_eq!(rt;
            refused(report(&OFF, &OFF, offered, measured, energy, baseline)),
            number
        );
    }
}

#[test]
fn samples_are_read_before_figures(rt: HostRuntime) {
    assert_eq!(rt; refused(report(&ON[1..], &ON, -1, 0, 0, 0)), 10);
    assert_eq!(rt; refused(report(&ON, &ON[1..], -1, 0, 0, 0)), 10);
    assert_eq!(rt; refused(report(&ON, &ON, -1, 0, 0, 0)), 11);
}

/// What one group realises, alone.
fn realised(
    fcr: &[u8],
    afrr: &[u8],
    measured: i64,
    energy: i64,
    baseline: i64,
) -> Result<i64, Refusal> {
    let only = report(fcr, afrr, 0, measured, energy, baseline)?;
    Ok(realised_power(&[Some(only), None, None, None, None, None, None, None]).units())
}

#[test]
fn fcr_power_and_baseline_are_taken_off(rt: HostRuntime) {
    let mended = on_but(0, b'0');
    assert_eq!(rt; realised(&ON, &ON, 20 * MW, MW / 20, 12 * MW), Ok(5 * MW));
    assert_eq!(rt; realised(&OFF, &ON, 20 * MW, MW / 20, 12 * MW), Ok(8 * MW));
    assert_eq!(rt;
        realised(&mended, &ON, 20 * MW, MW / 20, 12 * MW),
        Ok(8 * MW)
    );
    assert_eq!(rt; realised(&ON, &OFF, 20 * MW, MW / 20, 12 * MW), Ok(0));
    assert_eq!(rt; realised(&ON, &mended, 20 * MW, MW / 20, 12 * MW), Ok(0));
    assert_eq!(rt;
        realised(&ON, &ON, POWER_LIMIT, -ENERGY_LIMIT, -POWER_LIMIT),
        Ok(260_000_000_000_000)
    );
    assert_eq!(rt;
        realised(&ON, &ON, -POWER_LIMIT, ENERGY_LIMIT, POWER_LIMIT),
        Ok(-260_000_000_000_000)
    );
}

#[test]
fn a_reserve_is_above_zero_and_within_the_limit(rt: HostRuntime) {
    for units in [1, POWER_LIMIT] {
        assert!(rt; PrequalifiedReserve::new(Power::from_units(units)).is_some());
    }
    for units in [0, -1, POWER_LIMIT + 1, i64::MAX, i64::MIN] {
        assert!(rt; PrequalifiedReserve::new(Power::from_units(units)).is_none());
    }
}

/// What two groups of a pool offer, the second and the last, prequalified for 1 and for 5 units.
fn offered(
    second: Result<GroupReport, Refusal>,
    last: Result<GroupReport, Refusal>,
) -> Option<i64> {
    let one = PrequalifiedReserve::new(Power::from_units(1))?;
    let five = PrequalifiedReserve::new(Power::from_units(5))?;
    let reports = [None, second.ok(), None, None, None, None, None, last.ok()];
    Some(offered_reserve(&reports, &[five, one, five, five, five, five, five, five]).units())
}

#[test]
fn a_group_offers_no_more_than_its_own_reserve(rt: HostRuntime) {
    let three = report(&ON, &OFF, 3, 0, 0, 0);
    let seven = report(&ON, &OFF, 7, 0, 0, 0);
    let broken = report(&on_but(0, b'-'), &ON, 3, 0, 0, 0);
    let none = Err(Refusal::OutOfRange);
    assert_eq!(rt; offered(three, three), Some(4));
    assert_eq!(rt; offered(three, seven), Some(6));
    assert_eq!(rt; offered(three, broken), Some(1));
    assert_eq!(rt; offered(broken, seven), Some(5));
    assert_eq!(rt; offered(none, three), Some(3));
    assert_eq!(rt; offered(none, none), Some(0));
}
