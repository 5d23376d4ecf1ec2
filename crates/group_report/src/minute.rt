//! What the groups of a pool come to in one minute.

ghost use Rattle.std.specs.Prelude.{◌≡◌, ◌*◌, ◌^◌, ◌≤◌, map, pos, ◌-ℤ◌, ◌*ℤ◌, ◌≤ℤ◌, Some, unsigned_abs};
ghost use Rattle.std.specs.Int.{int_min};
ghost use Rattle.group_report.specs.Minutes.{offered_of, fcr_power_of, net_power_of, realised_of, offered_reserve_of, realised_power_of};

use crate::report::GroupReport;
use crate::reserve::PrequalifiedReserve;
use quantity::{Energy, Minutes, Power};

/// The groups of a pool are numbered 1 to 8.
pub const MOST_GROUPS: usize = 8;

/// What the groups that take part in FCR offer together, each no more than its own prequalified reserve. A group without a
/// report offers nothing.
pub fn offered_reserve(
    reports: &[Option<GroupReport>; MOST_GROUPS],
    reserves: &[PrequalifiedReserve; MOST_GROUPS],
) -> Power
    ensures value { result.units ≡ offered_reserve_of reports.now (map (λ reserve. reserve.quantity.units) reserves.now) }
    ensures some { pos 0 ≤ℤ result.units }
    ensures limit { result.units ≤ℤ pos (8 * 10 ^ 14) }
{
    let mut units = 0;
    // A rule of the project: in the order of the groups' numbers, by number; reserves last a day, and reports a minute.
    for (group, report) in reports.iter().enumerate() {
        units += offered_by(*report, reserves[group]).units();
    }
    Power::from_units(units)
}

/// What the groups that take part in aFRR realise together. A group without a report realises nothing.
pub fn realised_power(reports: &[Option<GroupReport>; MOST_GROUPS]) -> Power
    ensures value { result.units ≡ realised_power_of reports.now }
    ensures limit { unsigned_abs result.units ≤ 208 * 10 ^ 13 }
{
    let mut units = 0;
    for report in reports {
        units += realised_by(*report).units();
    }
    Power::from_units(units)
}

/// What one group offers, where it takes part in FCR.
fn offered_by(report: Option<GroupReport>, reserve: PrequalifiedReserve) -> Power
    ensures value { result.units ≡ offered_of report reserve.quantity.units }
    ensures some { pos 0 ≤ℤ result.units }
    ensures limit { result.units ≤ℤ pos (10 ^ 14) }
{
    match report {
        Some(report) if report.fcr().takes_part() => report.offered().min(reserve.quantity()),
        _ => Power::from_units(0),
    }
}

/// What one group realises, where it takes part in aFRR.
fn realised_by(report: Option<GroupReport>) -> Power
    ensures value { result.units ≡ realised_of report }
    ensures limit { unsigned_abs result.units ≤ 26 * 10 ^ 13 }
{
    match report {
        Some(report) if report.afrr().takes_part() => net_power(report),
        _ => Power::from_units(0),
    }
}

/// The measured power of a group less its FCR power and its baseline.
fn net_power(report: GroupReport) -> Power
    ensures value { result.units ≡ net_power_of report }
    ensures limit { unsigned_abs result.units ≤ 26 * 10 ^ 13 }
{
    let less_fcr = report.measured().units() - fcr_power(report).units();
    Power::from_units(less_fcr - report.baseline().units())
}

/// The power of a group's FCR energy, where it takes part in FCR.
fn fcr_power(report: GroupReport) -> Power
    ensures value { result.units ≡ fcr_power_of report }
    ensures limit { unsigned_abs result.units ≤ 6 * 10 ^ 13 }
{
    if report.fcr().takes_part() {
        minute_power(report.fcr_energy())
    } else {
        Power::from_units(0)
    }
}

/// The power that gives an energy within the minute.
fn minute_power(energy: Energy) -> Power
    requires { unsigned_abs energy.units ≤ 10 ^ 12 }
    ensures { result.units ≡ energy.units *ℤ pos 60 }
{
    energy.spread_over(Minutes::ONE).unwrap()
}
