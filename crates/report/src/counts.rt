ghost use Rattle.std.specs.Prelude.{◌≡◌, ◌++◌, OnOk, count_by};
ghost use Rattle.report.specs.Rows.{is_promise};
ghost use Rattle.report.specs.Report.{count_line, count_part, fails_row, finding_counts, has_verdict, promise_counts};

use crate::answers::{FindingRow, VerdictRow};
use consistency::Verdict;
use desk_base::{Bytes, OutOfMemory, PromiseName};
use result_records::Put;

/// Whether the row is that of a promise, and not that of `Program`.
pub(crate) fn is_promise_row(row: &VerdictRow) -> bool
    ensures { result ≡ is_promise row.now }
{
    row.key.name != PromiseName::Program
}

fn promise_has(row: &VerdictRow, verdict: Verdict) -> bool
    ensures { result ≡ has_verdict verdict row.now }
{
    is_promise_row(row) && row.verdict == verdict
}

fn promises(rows: &[VerdictRow]) -> usize
    ensures { result ≡ count_by is_promise rows.now }
{
    let mut count = 0;
    for row in rows {
        if is_promise_row(row) {
            count += 1;
        }
    }
    count
}

fn judged(rows: &[VerdictRow], verdict: Verdict) -> usize
    ensures { result ≡ count_by (has_verdict verdict) rows.now }
{
    let mut count = 0;
    for row in rows {
        if promise_has(row, verdict) {
            count += 1;
        }
    }
    count
}

fn failing(rows: &[FindingRow]) -> usize
    ensures { result ≡ count_by fails_row rows.now }
{
    let mut count = 0;
    for row in rows {
        if row.fails {
            count += 1;
        }
    }
    count
}

/// Puts the label and the number at the end.
#[tactic(auto, unfolding(crate::specs::Report::count_part))]
fn put_count(out: &mut Bytes, label: &str, number: usize) -> Result<(), OutOfMemory>
    ensures { OnOk result (out.new ≡ out.old ++ count_part label.now number) }
{
    out.put(label)?;
    out.put_number(number as u64)
}

/// Puts the label, the number and a line feed at the end.
#[tactic(auto, unfolding(crate::specs::Report::count_line))]
pub(crate) fn put_count_line(out: &mut Bytes, label: &str, number: u32) -> Result<(), OutOfMemory>
    ensures { OnOk result (out.new ≡ out.old ++ count_line label.now number) }
{
    put_count(out, label, number as usize)?;
    out.put("\n")
}

/// Puts the line that counts the promises by their verdicts at the end.
pub(crate) fn put_promise_counts(out: &mut Bytes, rows: &[VerdictRow]) -> Result<(), OutOfMemory>
    ensures { OnOk result (out.new ≡ out.old ++ promise_counts rows.now) }
{
    put_count(out, "promises ", promises(rows))?;
    put_count(out, " firm ", judged(rows, Verdict::Firm))?;
    put_count(out, " contingent ", judged(rows, Verdict::Contingent))?;
    put_count(out, " inconsistent ", judged(rows, Verdict::Inconsistent))?;
    out.put("\n")
}

/// Puts the line that counts the findings at the end.
pub(crate) fn put_finding_counts(out: &mut Bytes, rows: &[FindingRow]) -> Result<(), OutOfMemory>
    ensures { OnOk result (out.new ≡ out.old ++ finding_counts rows.now) }
{
    put_count(out, "findings ", rows.len())?;
    put_count(out, " failing ", failing(rows))?;
    out.put("\n")
}
