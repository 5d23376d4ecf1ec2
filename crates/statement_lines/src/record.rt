//! The record of a quarter hour.

ghost use Rattle.std.specs.Prelude.{◌≡◌};
ghost use Rattle.statement_lines.specs.Records.{figures_of};

use quantity::{Energy, Power, Share};

/// The figures of a record, in the order of its line.
pub(crate) const FIGURES: usize = 8;

/// What the settlement of a quarter hour comes to.
#[derive(Clone, Copy, Default)]
pub struct SettlementRecord {
    /// FCR that is recognised, the mean of the quarter hour.
    pub recognised: Power,
    /// M: what the offered reserve of each minute lacked, added up.
    pub missing: Power,
    /// D+: how far realised power lay outside the tolerance band in upward minutes, added up.
    pub upward_deviation: Power,
    /// D-: the same in downward minutes.
    pub downward_deviation: Power,
    /// W+: the upward deviation as energy.
    pub upward_energy: Energy,
    /// W-: the downward deviation as energy, below zero.
    pub downward_energy: Energy,
    /// S+: the share of W+ in the energy activated upward.
    pub upward_share: Share,
    /// S-: the share of W- in the energy activated downward.
    pub downward_share: Share,
}

impl SettlementRecord {
    /// The record's figures, in the order of its line.
    // Not `From`, nor is the way back: the order is that of a line, which a name can say and a conversion can't.
    pub fn figures(&self) -> [i64; FIGURES]
        ensures { result ≡ figures_of self.now }
    {
        [
            self.recognised.units(),
            self.missing.units(),
            self.upward_deviation.units(),
            self.downward_deviation.units(),
            self.upward_energy.units(),
            self.downward_energy.units(),
            self.upward_share.units(),
            self.downward_share.units(),
        ]
    }

    /// The record of these figures.
    pub fn of_figures(figures: &[i64; FIGURES]) -> SettlementRecord
        ensures { figures_of result ≡ figures.now }
    {
        let [
            recognised,
            missing,
            upward_deviation,
            downward_deviation,
            upward_energy,
            downward_energy,
            upward_share,
            downward_share,
        ] = *figures;
        SettlementRecord {
            recognised: Power::from_units(recognised),
            missing: Power::from_units(missing),
            upward_deviation: Power::from_units(upward_deviation),
            downward_deviation: Power::from_units(downward_deviation),
            upward_energy: Energy::from_units(upward_energy),
            downward_energy: Energy::from_units(downward_energy),
            upward_share: Share::from_units(upward_share),
            downward_share: Share::from_units(downward_share),
        }
    }
}
