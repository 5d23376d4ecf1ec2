//! A whole statement, written.

ghost use Rattle.std.specs.Prelude.{◌≡◌, ◌+◌, ◌*◌, ◌≤◌, true, ◌++◌, length, drop, Decides, MatchOption};
ghost use Rattle.std.specs.List.{All};
ghost use Rattle.quantity.specs.Refusals.{Answers};
ghost use Rattle.count_text.specs.Columns.{bytes_after};
ghost use Rattle.statement_lines.specs.Records.{figures_of};
ghost use Rattle.figure_text.specs.Rows.{Writable, writable};
ghost use Rattle.statement.specs.Statements.{Whole, records_text, statement_text, is_statement, statement_length, statement_refusal};

use figure_text::are_writable;
use quantity::Refusal;
use statement_lines::{
    OPENING_LENGTH, Opening, RECORD_LENGTH, REQUESTS, SettlementRecord, TAIL_LENGTH,
    write_opening_line, write_record_line, write_tail_line,
};

/// Whether the columns of a record line hold each figure of a record.
fn is_record_writable(record: &SettlementRecord) -> bool
    ensures { result ≡ writable (figures_of «record».now) }
{
    are_writable(&record.figures())
}

/// Whether the columns of a record line hold each figure of each record.
fn are_records_writable(records: &[SettlementRecord]) -> bool
    ensures { Decides result (All (λ x. Writable (figures_of x)) records.now) }
{
    records.iter().all(|record| is_record_writable(record))
}

/// Values that can be a statement.
#[derive(Clone, Copy)]
struct Content<'a> {
    opening: &'a Opening,
    records: &'a [SettlementRecord],
    requests: &'a [i64],
    ghost whole: { is_statement opening.now records.now requests.now ≡ true },
}

impl<'a> Content<'a> {
    /// These values, where they can be a statement.
    fn new(
        opening: &'a Opening,
        records: &'a [SettlementRecord],
        requests: &'a [i64],
    ) -> Option<Content<'a>>
        ensures { MatchOption result (Whole opening.now records.now requests.now → ⊥)
            (λ content. (content.opening.now ≡ opening.now) × (content.records.now ≡ records.now)
            × (content.requests.now ≡ requests.now)) }
    {
        // A usize has no `From` into a u64.
        if records.len() as u64 <= opening.length.quarter_hours()
            && are_records_writable(records)
            && requests.len() == REQUESTS
            && are_writable(requests)
        {
            Some(Content {
                opening,
                records,
                requests,
            })
        } else {
            None
        }
    }

    /// How long its text is.
    fn length(&self) -> usize
        ensures { result ≡ statement_length (length self.now.records.now) }
    {
        OPENING_LENGTH + RECORD_LENGTH * self.records.len() + TAIL_LENGTH
    }

    /// Writes the record lines one after another, numbered from 1, over the first bytes of `out`.
    fn put_records(&self, out: &mut [u8])
        requires { 165 * length self.now.records.now ≤ length out.old }
        ensures { out.new ≡ records_text 1 self.now.records.now ++ drop (165 * length self.now.records.now) out.old }
    {
        // By index: what is written through the items of `chunks_exact_mut` is not known behind the loop.
        for (k, record) in self.records.iter().enumerate() {
            let start = RECORD_LENGTH * k;
            // A usize has no `From` into a u64.
            write_record_line(
                k as u64 + 1,
                record,
                &mut out[start..start + RECORD_LENGTH],
            ).unwrap();
        }
    }

    /// Writes the statement over the first bytes of `out` and answers its length.
    fn put(&self, out: &mut [u8]) -> usize
        requires { statement_length (length self.now.records.now) ≤ length out.old }
        ensures length { result ≡ statement_length (length self.now.records.now) }
        ensures bytes { out.new ≡ statement_text self.now.opening.now self.now.records.now self.now.requests.now
            ++ drop (statement_length (length self.now.records.now)) out.old }
    {
        let tail = OPENING_LENGTH + RECORD_LENGTH * self.records.len();
        let end = tail + TAIL_LENGTH;
        write_opening_line(self.opening, &mut out[0..OPENING_LENGTH]).unwrap();
        self.put_records(&mut out[OPENING_LENGTH..tail]);
        // A usize has no `From` into a u64.
        let closed = self.records.len() as u64;
        write_tail_line(closed, self.requests, &mut out[tail..end]).unwrap();
        end
    }
}

/// Writes a statement over the first bytes of `out` and answers its length.
/// Refuses more records than the day has quarter hours, requests that are not six, and a figure that is too wide for its
/// columns (11), then a buffer that is shorter than the text (16); a refusal leaves every byte as it was.
pub fn write_statement(
    opening: &Opening,
    records: &[SettlementRecord],
    requests: &[i64],
    out: &mut [u8],
) -> Result<usize, Refusal>
    ensures refused_first { Answers (statement_refusal opening.now records.now requests.now (length out.old)) (λ n. n ≡ length (statement_text opening.now records.now requests.now)) result }
    ensures bytes { out.new ≡ bytes_after (statement_refusal opening.now records.now requests.now (length out.old)) (statement_text opening.now records.now requests.now) out.old }
{
    let content = Content::new(opening, records, requests).ok_or(Refusal::OutOfRange)?;
    if out.len() < content.length() {
        return Err(Refusal::BufferTooShort);
    }
    Ok(content.put(out))
}
