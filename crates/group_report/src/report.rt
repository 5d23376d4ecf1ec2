//! Reports of groups.

ghost use Rattle.std.specs.Prelude.{◌≡◌, ◌^◌, ◌≤◌, pos, ◌≤ℤ◌, IfOk, unsigned_abs};
ghost use Rattle.quantity.specs.Refusals.{Answers};
ghost use Rattle.group_report.specs.Participations.{participation_of};
ghost use Rattle.group_report.specs.Reports.{report_refusal};

use crate::figures::{FcrEnergy, GroupPower, Offer};
use crate::participation::Participation;
use quantity::{Energy, Power, Refusal};

/// What one group of a pool reports of one minute.
#[derive(Clone, Copy)]
pub struct GroupReport {
    fcr: Participation,
    afrr: Participation,
    offered: Offer,
    measured: GroupPower,
    /// What it gave for FCR.
    energy: FcrEnergy,
    baseline: GroupPower,
}

impl GroupReport {
    /// The report of a minute. Refuses status samples that are not those of a minute (10), then a figure outside its limits
    /// (11), also one that a participation sets aside.
    pub fn new(
        fcr: &[u8],
        afrr: &[u8],
        offered: Power,
        measured: Power,
        energy: Energy,
        baseline: Power,
    ) -> Result<GroupReport, Refusal>
        ensures refusal { Answers (report_refusal fcr.now afrr.now offered measured energy baseline) (λ _. Unit {0}) result }
        ensures participations { IfOk result (λ report. (report.fcr ≡ participation_of fcr.now) × (report.afrr ≡ participation_of afrr.now)) }
        ensures figures { IfOk result (λ report. (report.offered.quantity ≡ offered) × (report.measured.quantity ≡ measured) × (report.energy.quantity ≡ energy) × (report.baseline.quantity ≡ baseline)) }
    {
        let fcr = Participation::of_samples(fcr)?;
        let afrr = Participation::of_samples(afrr)?;
        let refused = Refusal::OutOfRange;
        Ok(GroupReport {
            fcr,
            afrr,
            offered: Offer::new(offered).ok_or(refused)?,
            measured: GroupPower::new(measured).ok_or(refused)?,
            energy: FcrEnergy::new(energy).ok_or(refused)?,
            baseline: GroupPower::new(baseline).ok_or(refused)?,
        })
    }

    /// The participation in FCR.
    pub fn fcr(self) -> Participation
        ensures { result ≡ self.fcr }
    {
        self.fcr
    }

    /// The participation in aFRR.
    pub fn afrr(self) -> Participation
        ensures { result ≡ self.afrr }
    {
        self.afrr
    }

    /// The reserve that the group offers for FCR.
    pub fn offered(self) -> Power
        ensures value { result ≡ self.offered.quantity }
        ensures some { pos 0 ≤ℤ result.units }
        ensures limit { result.units ≤ℤ pos (10 ^ 14) }
    {
        self.offered.quantity()
    }

    /// The measured power.
    pub fn measured(self) -> Power
        ensures value { result ≡ self.measured.quantity }
        ensures limit { unsigned_abs result.units ≤ 10 ^ 14 }
    {
        self.measured.quantity()
    }

    /// The energy that the group gave for FCR.
    pub fn fcr_energy(self) -> Energy
        ensures value { result ≡ self.energy.quantity }
        ensures limit { unsigned_abs result.units ≤ 10 ^ 12 }
    {
        self.energy.quantity()
    }

    /// The power that the group would have had without any service.
    pub fn baseline(self) -> Power
        ensures value { result ≡ self.baseline.quantity }
        ensures limit { unsigned_abs result.units ≤ 10 ^ 14 }
    {
        self.baseline.quantity()
    }
}
