//! A statement's lines, read one after another.

ghost use Rattle.std.specs.Prelude.{◌≡◌, [], None};
ghost use Rattle.text_parts.specs.Lines.{rest_of};
ghost use Rattle.statement.specs.declared.stage.Stage.TheVariants.{BeforeOpening};
ghost use Rattle.statement.specs.Reading.{NextRead};

use crate::fault::TextFault;
use crate::stage::Stage;
use quantity::Refusal;
use statement_lines::StatementLine;
use text_parts::{Line, Lines};

/// How far the text of a statement was read: its lines from the first, as long as each comes in turn.
#[derive(Clone, Copy)]
pub struct StatementReader<'a> {
    lines: Lines<'a>,
    line: Option<Line<'a>>,
    stage: Stage,
}

impl<'a> StatementReader<'a> {
    /// A reader before the first line.
    pub fn new(text: &'a [u8]) -> StatementReader<'a>
        ensures rest { rest_of result.lines ≡ text.now }
        ensures taken { result.lines.taken ≡ 0 }
        ensures stage { result.stage ≡ BeforeOpening }
        ensures line { result.line ≡ None }
    {
        StatementReader {
            lines: Lines::new(text),
            line: None,
            stage: Stage::BeforeOpening,
        }
    }

    /// The line that was read last, as a part of the text with its number.
    pub fn line(&self) -> Option<Line<'a>>
        ensures { result ≡ self.now.line }
    {
        self.line
    }

    /// Reads the next line of the statement; none behind its tail.
    /// Refuses a line with a fault of its own (17, 18), a line that does not come here, any line after the tail, and a text
    /// that stops before its tail (19); a refusal leaves the reader where it was.
    // No Iterator: a refusal leaves the reader where it was, so it would come again without end.
    pub fn next(&mut self) -> Result<Option<StatementLine>, TextFault>
        ensures { NextRead self.old self.new result }
    {
        let mut lines = self.lines;
        let Some(line) = lines.next() else {
            return self.ended();
        };
        // `map_err` was tried: what holds of the fault is not proved of a closure's.
        let turn = match self.stage.take(line.bytes()) {
            Ok(turn) => turn,
            Err(fault) => return Err(TextFault::in_line(line.number(), fault)),
        };
        *self = StatementReader {
            lines,
            line: Some(line),
            stage: turn.stage,
        };
        Ok(Some(turn.content))
    }

    /// What is said of a text that has no line left.
    fn ended(&self) -> Result<Option<StatementLine>, TextFault>
        requires { rest_of self.now.lines ≡ [] }
        ensures { NextRead self.now self.now result }
    {
        if self.stage.is_ended() {
            return Ok(None);
        }
        Err(TextFault {
            refusal: Refusal::NotInTurn,
            line: self.lines.taken() + 1,
            column: 0,
        })
    }
}
