//! Bands by hand, figures on both sides of their ends, and level things in a search.

use super::*;
use activation::ActivationRequest;
use quantity::Power;
use std::test::Fail;

const MW: i64 = 10_000_000_000;

/// A request of so many units.
fn request(units: i64) -> Option<ActivationRequest> {
    let mut upward = [0; 30];
    let mut downward = [0; 30];
    if units >= 0 {
        upward = [units; 30];
    } else {
        downward = [units; 30];
    }
    ActivationRequest::of_samples(&upward, &downward).ok()
}

fn allowance(upward: i64, downward: i64) -> Option<Allowance> {
    let upward = BidSum::new(Power::from_units(upward))?;
    let downward = BidSum::new(Power::from_units(downward))?;
    Some(Allowance::of_bids(upward, downward))
}

/// The allowance that two sums of bids give.
fn allowed(upward: i64, downward: i64) -> Option<i64> {
    Some(allowance(upward, downward)?.power().units())
}

#[test]
fn the_allowance_is_a_tenth_of_the_larger_sum(rt: HostRuntime) {
    assert_eq!(rt; allowed(25 * MW, 10 * MW), Some(25_000_000_000));
    assert_eq!(rt; allowed(10 * MW, 25 * MW), Some(25_000_000_000));
    assert_eq!(rt; allowed(4, 0), Some(0));
    assert_eq!(rt; allowed(5, 0), Some(1));
    assert_eq!(rt; allowed(0, 5), Some(1));
    assert_eq!(rt; allowed(10_000 * MW, 0), Some(1_000 * MW));
    assert_eq!(rt; allowed(10_000 * MW + 1, 0), None);
    assert_eq!(rt; allowed(0, -1), None);
}

/// The units of a distance, or the number of its refusal.
fn far<R: BandRule>(rule: &R, figure: i64) -> Result<i64, u8> {
    match distance(rule, Power::from_units(figure)) {
        Ok(distance) => Ok(distance.units()),
        Err(why) => Err(why.number()),
    }
}

/// The band of the window 0, 0, 5, 10, 10, 10, 10 MW with bids of 25 MW.
fn shown() -> Option<ToleranceBand> {
    let none = request(0)?;
    let five = request(5 * MW)?;
    let ten = request(10 * MW)?;
    let window = [none, none, five, ten, ten, ten, ten];
    Some(ToleranceBand::over(&window, allowance(25 * MW, 10 * MW)?))
}

#[test]
fn the_band_reaches_over_seven_requests(rt: HostRuntime) -> Result<(), Fail> {
    let Some(band) = shown() else {
        return Err(Fail::new("no band"));
    };
    assert_eq!(rt; far(&band, 125_000_000_000), Ok(0));
    assert_eq!(rt; far(&band, 125_000_000_001), Ok(1));
    assert_eq!(rt; far(&band, -25_000_000_000), Ok(0));
    assert_eq!(rt; far(&band, -3 * MW), Ok(5_000_000_000));
    assert_eq!(rt;
        far(&band, FIGURE_LIMIT),
        Ok(FIGURE_LIMIT - 125_000_000_000)
    );
    assert_eq!(rt; far(&band, FIGURE_LIMIT + 1), Err(11));
    assert_eq!(rt; far(&band, i64::MIN), Err(11));
    Ok(())
}

#[test]
fn a_floor_has_no_high_end(rt: HostRuntime) -> Result<(), Fail> {
    assert!(rt; Floor::new(Power::from_units(200_000 * MW)).is_some());
    assert!(rt; Floor::new(Power::from_units(200_000 * MW + 1)).is_none());
    assert!(rt; Floor::new(Power::from_units(-200_000 * MW - 1)).is_none());
    let Some(floor) = Floor::new(Power::from_units(10)) else {
        return Err(Fail::new("no floor"));
    };
    assert_eq!(rt; far(&floor, 9), Ok(1));
    assert_eq!(rt; far(&floor, 10), Ok(0));
    assert_eq!(rt; far(&floor, FIGURE_LIMIT), Ok(0));
    assert_eq!(rt; far(&floor, -FIGURE_LIMIT), Ok(FIGURE_LIMIT + 10));
    Ok(())
}

/// The places of the first highest, the first lowest, and the first lowest but for the first request, in a run of -1, 1, -1, 1 MW.
fn places() -> Option<(usize, usize, usize)> {
    let low = request(-MW)?;
    let high = request(MW)?;
    let run = [low, high, low, high];
    let highest = first_foremost::<HighestFirst>(&run)?;
    let lowest = first_foremost::<LowestFirst>(&run)?;
    let later = first_foremost::<LowestFirst>(&run[1..])?;
    Some((highest, lowest, later))
}

#[test]
fn the_first_of_level_requests_is_found(rt: HostRuntime) {
    assert_eq!(rt; places(), Some((1, 0, 1)));
    let none: [ActivationRequest; 0] = [];
    assert_eq!(rt; first_foremost::<HighestFirst>(&none), None);
}
