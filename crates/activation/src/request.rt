//! Activation requests.

ghost use Rattle.std.specs.Prelude.{◌≡◌, ◌*◌, ◌^◌, ◌≤◌, true, pos, ◌+ℤ◌, neg_ℤ, MatchOption, unsigned_abs};
ghost use Rattle.quantity.specs.Refusals.{Answers};
ghost use Rattle.quantity.specs.Series.{power_limit, total as total_of};
ghost use Rattle.activation.specs.Requests.{sampled, request_refusal, request_of, direction_of};

use crate::direction::Direction;
use quantity::{Divisor, POWER_LIMIT, Power, Refusal, all_within, is_within, total};
use std::cmp::Ordering;

/// The samples of a minute in one direction: one each two seconds.
pub const SAMPLES: usize = 30;

/// The power that the pool was asked for in a minute, upward above zero and downward below.
// Not a `Limited` power, whose crate alone could give it methods, nor a struct round one: each definition that speaks of a
// request would read its units through one name more.
#[derive(Clone, Copy)]
pub struct ActivationRequest {
    power: Power,
    ghost limit: { unsigned_abs power.units ≤ 10 ^ 14 },
}

impl ActivationRequest {
    /// The request of a minute, from its upward and its downward samples in units of 10^-10 MW.
    pub fn of_samples(upward: &[i64], downward: &[i64]) -> Result<ActivationRequest, Refusal>
        ensures { Answers (request_refusal upward.now downward.now) (λ q. q.power ≡ request_of upward.now downward.now) result }
    {
        if !is_sampled(upward, 0, POWER_LIMIT) || !is_sampled(downward, -POWER_LIMIT, 0) {
            return Err(Refusal::OutOfRange);
        }
        Ok(mean(upward, downward))
    }

    /// The request of so much power, or none beyond its limit.
    pub fn new(power: Power) -> Option<ActivationRequest>
        ensures { MatchOption result (unsigned_abs power.units ≤ 10 ^ 14 → ⊥) (λ q. q.power ≡ power) }
    {
        if !is_within(power.units(), -POWER_LIMIT, POWER_LIMIT) {
            return None;
        }
        Some(ActivationRequest { power })
    }

    pub fn power(self) -> Power
        ensures value { result ≡ self.power }
        ensures limit { unsigned_abs result.units ≤ 10 ^ 14 }
    {
        self.power
    }

    pub fn direction(self) -> Direction
        ensures { result ≡ direction_of self.power.units }
    {
        match self.power.units().cmp(&0) {
            Ordering::Greater => Direction::Upward,
            Ordering::Equal => Direction::Neither,
            Ordering::Less => Direction::Downward,
        }
    }
}

/// Whether these are the samples of a minute: thirty, each from low to high.
fn is_sampled(samples: &[i64], low: i64, high: i64) -> bool
    ensures { result ≡ sampled low high samples.now }
{
    samples.len() == SAMPLES && all_within(samples, low, high)
}

/// What both directions come to together.
fn net(raised: i128, lowered: i128) -> i128
    requires raised { unsigned_abs raised ≤ 10 ^ 14 * 30 }
    requires lowered { unsigned_abs lowered ≤ 10 ^ 14 * 30 }
    ensures { result ≡ raised +ℤ lowered }
{
    raised + lowered
}

/// What all samples of a minute come to.
fn sum(upward: &[i64], downward: &[i64]) -> Power
    requires up { sampled (pos 0) power_limit upward.now ≡ true }
    requires down { sampled (neg_ℤ power_limit) (pos 0) downward.now ≡ true }
    ensures value { result.units ≡ total_of upward.now +ℤ total_of downward.now }
    ensures bound { unsigned_abs result.units ≤ 10 ^ 14 * 30 }
{
    Power::from_units(net(total(upward), total(downward)) as i64)
}

/// The mean power of a minute.
fn mean(upward: &[i64], downward: &[i64]) -> ActivationRequest
    requires up { sampled (pos 0) power_limit upward.now ≡ true }
    requires down { sampled (neg_ℤ power_limit) (pos 0) downward.now ≡ true }
    ensures { result.power ≡ request_of upward.now downward.now }
{
    let power = sum(upward, downward).part(Divisor::THIRTY);
    ActivationRequest { power }
}
