ghost use Rattle.std.specs.Prelude.{◌≡◌, ◌++◌, IfOk, OnOk, codes};
ghost use Rattle.report.specs.Report.{program_lines, promise_lines, failing_lines, report_bytes, size_lines};

use crate::answers::{Answers, FindingRow, VerdictRow};
use crate::counts::{is_promise_row, put_count_line, put_finding_counts, put_promise_counts};
use crate::finding_lines::put_finding;
use crate::verdict_lines::put_verdict;
use desk_base::{Bytes, OutOfMemory};
use result_records::Put;
use std::alloc::Global;

fn put_program(out: &mut Bytes, rows: &[VerdictRow]) -> Result<(), OutOfMemory>
    ensures { OnOk result (out.new ≡ out.old ++ program_lines rows.now) }
{
    for row in rows {
        if !is_promise_row(row) {
            put_verdict(out, row)?;
        }
    }
    Ok(())
}

fn put_promises(out: &mut Bytes, rows: &[VerdictRow]) -> Result<(), OutOfMemory>
    ensures { OnOk result (out.new ≡ out.old ++ promise_lines rows.now) }
{
    for row in rows {
        if is_promise_row(row) {
            put_verdict(out, row)?;
        }
    }
    Ok(())
}

fn put_failing(out: &mut Bytes, rows: &[FindingRow]) -> Result<(), OutOfMemory>
    ensures { OnOk result (out.new ≡ out.old ++ failing_lines rows.now) }
{
    for row in rows {
        if row.fails {
            put_finding(out, row)?;
        }
    }
    Ok(())
}

fn put_sizes(out: &mut Bytes, answers: &Answers) -> Result<(), OutOfMemory>
    ensures { OnOk result (out.new ≡ out.old ++ size_lines answers.now) }
{
    out.put("report 1\n")?;
    put_count_line(out, "files ", answers.files)?;
    put_count_line(out, "types ", answers.types)
}

/// The report, byte for byte: a line for the form, the files, the types, `Program`, the counts of
/// promises and of findings, each promise's verdict, each failing finding, and the end, each line
/// ended by a line feed. It has one `program` line for each row of `Program`.
pub fn report_text(alloc: Global, answers: &Answers) -> Result<Bytes, OutOfMemory>
    ensures { IfOk result (λ text. text ≡ report_bytes answers.now) }
{
    let mut out = Bytes::new(alloc);
    let findings = answers.findings.as_slice();
    let verdicts = answers.verdicts.as_slice();
    put_sizes(&mut out, answers)?;
    put_program(&mut out, verdicts)?;
    put_promise_counts(&mut out, verdicts)?;
    put_finding_counts(&mut out, findings)?;
    put_promises(&mut out, verdicts)?;
    put_failing(&mut out, findings)?;
    out.put("end\n")?;
    Ok(out)
}
