//! A whole statement, read.

ghost use Rattle.std.specs.Prelude.{◌≡◌, true, List, ℤ, is_some, IfOk, Some, MatchResult};
ghost use Rattle.statement.specs.Drafts.{Added, Blank};
ghost use Rattle.statement.specs.Reading.{text_fault, Found};
ghost use Rattle.statement.specs.Statements.{StatementIn, records_of, Holds};

use crate::fault::TextFault;
use crate::reader::StatementReader;
use crate::records::Records;
use crate::statement::Statement;
use statement_lines::{Opening, SettlementRecord, StatementLine, TailLine};

/// What was read of a statement so far.
#[derive(Clone, Copy)]
pub(crate) struct Draft {
    opening: Option<Opening>,
    records: Records,
    tail: Option<TailLine>,
}

impl Draft {
    fn new() -> Draft
        ensures { Blank result }
    {
        Draft {
            opening: None,
            records: Records::new(),
            tail: None,
        }
    }

    /// Adds what a line writes.
    fn add(&mut self, content: StatementLine)
        ensures { Added self.old content self.new }
    {
        match content {
            StatementLine::Opening(opening) => self.opening = Some(opening),
            StatementLine::Record(row) => self.records.push(row.record),
            StatementLine::Tail(tail) => self.tail = Some(tail),
        }
    }

    /// The statement, once its opening and its tail were read.
    // No `?`: a text without a fault has both, and no refusal stands for one that lacks them.
    fn finish(self) -> Statement
        requires { (is_some self.opening ≡ true) × (is_some self.tail ≡ true) }
        ensures opening { self.opening ≡ Some result.opening }
        ensures records { result.records ≡ self.records }
        ensures tail { self.tail ≡ Some result.tail }
    {
        Statement {
            opening: self.opening.unwrap(),
            records: self.records,
            tail: self.tail.unwrap(),
        }
    }
}

/// Reads a whole statement from its text.
/// Refuses a text with a fault by the first: a line with a fault of its own (17, 18), a line that does not come here or a
/// text that stops before its tail or goes on after it (19).
pub fn read_statement(text: &[u8]) -> Result<Statement, TextFault>
    ensures written_is_read { (o : Opening) (rs : List SettlementRecord) (requests : List ℤ) → StatementIn o rs requests text.now → MatchResult result (λ s. Holds s o rs requests) (λ _. ⊥) }
    ensures read_is_written { IfOk result (λ s. StatementIn s.opening (records_of s) s.tail.requests text.now) }
    ensures first_fault { Found (text_fault text.now) result }
{
    let mut reader = StatementReader::new(text);
    let mut draft = Draft::new();
    while let Some(content) = reader.next()? {
        draft.add(content);
    }
    Ok(draft.finish())
}
