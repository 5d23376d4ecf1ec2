//! The records of a day.

ghost use Rattle.std.specs.Prelude.{◌≡◌, ◌<◌, ◌≤◌, [], ◌∷◌, ◌++◌, length, take as first};

use statement_lines::SettlementRecord;

/// The most records of a day: the longest has a hundred quarter hours.
const MOST: usize = 100;

/// The records of a day's closed quarter hours, in order.
// An array and its count, and no `ArrayVec`: that is never `Copy`, and whoever holds a statement would not know its bound.
#[derive(Clone, Copy)]
pub(crate) struct Records {
    list: [SettlementRecord; MOST],
    count: usize,
    ghost few: { count ≤ 100 },
}

impl Records {
    pub(crate) fn new() -> Records
        ensures { first result.count result.list ≡ [] }
    {
        Records {
            list: [SettlementRecord::default(); MOST],
            count: 0,
        }
    }

    /// One record more, where the day can have it.
    pub(crate) fn push(&mut self, record: SettlementRecord)
        ensures { length (first self.old.count self.old.list) < 100 → first self.new.count self.new.list ≡ first self.old.count self.old.list ++ «record» ∷ [] }
    {
        if self.count < MOST {
            self.list[self.count] = record;
            self.count += 1;
        }
    }

    pub(crate) fn as_slice(&self) -> &[SettlementRecord]
        ensures { result.now ≡ first self.now.count self.now.list }
    {
        &self.list[0..self.count]
    }
}
