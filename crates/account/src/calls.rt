//! The calls of an account.

ghost use Rattle.std.specs.Prelude.{◌≡◌, List, []};
ghost use Rattle.quantity.specs.Refusals.{Answers};
ghost use Rattle.account.specs.Changes.{Judged};
ghost use Rattle.account.specs.Accounts.{judged, add_refusal_of, Holds, HoldsAfter};

use crate::state::Account;
use bands::{BandRule, FIGURE_LIMIT, distance};
use quantity::{Power, Refusal, is_within};

/// The figures that an account takes: the minutes of a quarter hour.
const FIGURES: u8 = 15;

impl<R: BandRule + Drop> Account<R> {
    /// An account with a rule and no figure.
    pub fn new(rule: R) -> Account<R>
        ensures rule { result.rule ≡ rule }
        ensures empty { Holds [] result.total.units result.count }
    {
        Account {
            rule,
            total: Power::from_units(0),
            count: 0,
        }
    }

    /// Judges the figures to come by another rule. The total and the count stay.
    pub fn replace(&mut self, rule: R)
        ensures rule { self.new.rule ≡ rule }
        ensures total { self.new.total ≡ self.old.total }
        ensures count { self.new.count ≡ self.old.count }
    {
        self.rule = rule;
    }

    /// Adds the distance of a figure under the rule that is held.
    /// Refuses a figure beyond its limit (11), then a sixteenth figure (12); a refusal changes nothing.
    pub fn add(&mut self, figure: Power) -> Result<(), Refusal>
        ensures refused_first { Answers (add_refusal_of figure.units self.old.count) (λ _. Unit {0}) result }
        ensures rule { self.new.rule ≡ self.old.rule }
        ensures holds { (js : List Judged) → Holds js self.old.total.units self.old.count → HoldsAfter (add_refusal_of figure.units self.old.count) (judged (R.lowest self.old.rule) (R.highest self.old.rule) figure.units) js self.new.total.units self.new.count }
    {
        // The check of `distance` stands here too: a full account asks its rule for nothing.
        if !is_within(figure.units(), -FIGURE_LIMIT, FIGURE_LIMIT) {
            return Err(Refusal::OutOfRange);
        }
        if self.count >= FIGURES {
            return Err(Refusal::PlaceTaken);
        }
        let far = distance(&self.rule, figure)?;
        self.total = Power::from_units(self.total.units() + far.units());
        self.count += 1;
        Ok(())
    }
}
