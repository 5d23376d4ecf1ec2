//! What may come next in a statement.

ghost use Rattle.std.specs.Prelude.{◌≡◌, ◌+◌, IfOk, if◌then◌else◌, Some, None, Decides, nat_eq};
ghost use Rattle.quantity.specs.declared.refusal.Refusal.TheVariants.{NotInTurn};
ghost use Rattle.line_text.specs.Faults.{Judged};
ghost use Rattle.statement_lines.specs.Kinds.{LineIn};
ghost use Rattle.statement.specs.declared.stage.Stage.TheVariants.{InRecords, AfterTail};
ghost use Rattle.statement.specs.Turns.{record_comes, stage_after, fault_at, next_stage};

use line_text::LineFault;
use quantity::Refusal;
use statement_lines::{StatementLine, read_line};

/// How far a statement was read.
#[derive(Clone, Copy)]
pub(crate) enum Stage {
    /// Nothing was read: an opening comes.
    BeforeOpening,
    /// The opening of a day with so many quarter hours was read, and so many records: the next record or the tail comes.
    InRecords { quarter_hours: u64, closed: u64 },
    /// The tail was read: nothing comes.
    AfterTail,
}

/// A line that came in turn, and what may come after it.
#[derive(Clone, Copy)]
pub(crate) struct Turn {
    pub(crate) content: StatementLine,
    pub(crate) stage: Stage,
}

/// The line is well formed and does not come here.
fn not_in_turn() -> LineFault
    ensures { result ≡ record { refusal = NotInTurn; column = 0 } }
{
    LineFault {
        refusal: Refusal::NotInTurn,
        column: 0,
    }
}

impl Stage {
    /// Whether the tail was read.
    pub(crate) fn is_ended(self) -> bool
        ensures { Decides result (self ≡ AfterTail) }
    {
        matches!(self, Stage::AfterTail)
    }

    /// What may come after a line, or none where the line does not come here.
    fn after(self, content: &StatementLine) -> Option<Stage>
        ensures { result ≡ stage_after self content.now }
    {
        match (self, content) {
            (Stage::BeforeOpening, StatementLine::Opening(opening)) => Some(Stage::InRecords {
                quarter_hours: opening.length.quarter_hours(),
                closed: 0,
            }),
            (
                Stage::InRecords {
                    quarter_hours,
                    closed,
                },
                StatementLine::Record(row),
            ) if closed < quarter_hours && row.quarter_hour == closed + 1 => {
                Some(Stage::InRecords {
                    quarter_hours,
                    closed: row.quarter_hour,
                })
            }
            (Stage::InRecords { closed, .. }, StatementLine::Tail(row)) if row.closed == closed => {
                Some(Stage::AfterTail)
            }
            _ => None,
        }
    }

    /// Takes the next line of a statement.
    /// Refuses any line after the tail (19, column 0), then a line with a fault of its own, then one that does not come here (19, column 0).
    pub(crate) fn take(self, line: &[u8]) -> Result<Turn, LineFault>
        ensures first_fault { Judged (fault_at self line.now) result }
        ensures turn { IfOk result (λ turn. LineIn turn.content line.now × (turn.stage ≡ next_stage self line.now) × (stage_after self turn.content ≡ Some turn.stage)) }
    {
        if self.is_ended() {
            return Err(not_in_turn());
        }
        let content = read_line(line)?;
        let stage = self.after(&content).ok_or(not_in_turn())?;
        Ok(Turn { content, stage })
    }
}
