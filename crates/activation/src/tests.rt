//! Samples at the edges of their limits, and requests at the edge of a direction.

use super::*;
use quantity::{POWER_LIMIT, Power, Refusal};

fn asked(upward: &[i64], downward: &[i64]) -> Result<(i64, Direction), Refusal> {
    let request = ActivationRequest::of_samples(upward, downward)?;
    Ok((request.power().units(), request.direction()))
}

fn one(sample: i64) -> [i64; SAMPLES] {
    let mut samples = [0; SAMPLES];
    samples[SAMPLES - 1] = sample;
    samples
}

#[test]
fn the_direction_is_that_of_the_rounded_request(rt: HostRuntime) {
    let none = [0; SAMPLES];
    assert_eq!(rt; asked(&none, &none), Ok((0, Direction::Neither)));
    assert_eq!(rt; asked(&one(14), &none), Ok((0, Direction::Neither)));
    assert_eq!(rt; asked(&one(15), &none), Ok((1, Direction::Upward)));
    assert_eq!(rt; asked(&none, &one(-14)), Ok((0, Direction::Neither)));
    assert_eq!(rt; asked(&none, &one(-15)), Ok((-1, Direction::Downward)));
    assert_eq!(rt; asked(&one(100), &one(-86)), Ok((0, Direction::Neither)));
    assert_eq!(rt; asked(&one(100), &one(-85)), Ok((1, Direction::Upward)));
}

#[test]
fn samples_reach_their_limits_and_no_further(rt: HostRuntime) {
    let none = [0; SAMPLES];
    let high = [POWER_LIMIT; SAMPLES];
    let low = [-POWER_LIMIT; SAMPLES];
    assert_eq!(rt; asked(&high, &none), Ok((POWER_LIMIT, Direction::Upward)));
    assert_eq!(rt; asked(&none, &low), Ok((-POWER_LIMIT, Direction::Downward)));
    assert_eq!(rt; asked(&high, &low), Ok((0, Direction::Neither)));
    for sample in [-1, POWER_LIMIT + 1, i64::MAX, i64::MIN] {
        assert_eq!(rt; asked(&one(sample), &none), Err(Refusal::OutOfRange));
    }
    for sample in [1, -POWER_LIMIT - 1, i64::MAX, i64::MIN] {
        assert_eq!(rt; asked(&none, &one(sample)), Err(Refusal::OutOfRange));
    }
}

#[test]
fn a_request_lies_within_its_limit(rt: HostRuntime) {
    for units in [0, 1, -1, POWER_LIMIT, -POWER_LIMIT] {
        assert!(rt; ActivationRequest::new(Power::from_units(units)).is_some());
    }
    for units in [POWER_LIMIT + 1, -POWER_LIMIT - 1, i64::MAX, i64::MIN] {
        assert!(rt; ActivationRequest::new(Power::from_units(units)).is_none());
    }
}

#[test]
fn a_minute_has_thirty_samples_a_direction(rt: HostRuntime) {
    let none = [0; SAMPLES];
    let more = [0; SAMPLES + 1];
    assert_eq!(rt; asked(&none[1..], &none), Err(Refusal::OutOfRange));
    assert_eq!(rt; asked(&none, &none[1..]), Err(Refusal::OutOfRange));
    assert_eq!(rt; asked(&more, &none), Err(Refusal::OutOfRange));
    assert_eq!(rt; asked(&none, &more), Err(Refusal::OutOfRange));
    assert_eq!(rt; asked(&[], &none), Err(Refusal::OutOfRange));
}
