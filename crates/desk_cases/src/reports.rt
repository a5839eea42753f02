//! Cases of `bundle` and `report`. Answers are written as parts with `; ` between them:
//! `sizes` with the numbers of files, types and units; verdicts, as `firm PROMISE`, `inconsistent PROMISE
//! blame FINDING` or `contingent PROMISE rests LINK`; and findings that hold or fail with their places, as
//! `held FINDING at PATH:LINE SUBJECT` or `failing` with the same.

use crate::keys::{finding_of, link_of, promise_of};
use crate::notation::text_of;
use crate::surfaces::put_bytes;
use crate::table::first_word;
use anyhow::{Context, Result, bail};
use bundle::{BundleError, check_bundle};
use consistency::Verdict;
use desk_base::{Bytes, Items, Text};
use report::{Answers, FindingRow, VerdictRow, report_text, verdict_line};
use result_records::Finding;
use std::alloc::Global;

fn put_bundle(alloc: Global, out: &mut String, bytes: &[u8]) -> Result<()> {
    match check_bundle(alloc, bytes) {
        Ok(()) => out.push_str("a bundle")?,
        Err(BundleError::Bad { at }) => write!(out, "no bundle at {at}")?,
        Err(BundleError::OutOfMemory) => out.push_str("out of memory")?,
    }
    Ok(())
}

fn row_of(alloc: Global, verdict: Verdict, written: &str) -> Result<VerdictRow> {
    Ok(VerdictRow {
        key: promise_of(alloc, written)?,
        verdict,
        blame: None,
        leaf: None,
    })
}

fn blamed(alloc: Global, written: &str) -> Result<VerdictRow> {
    let (promise, blame) = written.split_once(" blame ").context("no blame")?;
    let mut row = row_of(alloc, Verdict::Inconsistent, promise)?;
    row.blame = Some(finding_of(alloc, blame)?);
    Ok(row)
}

fn resting(alloc: Global, written: &str) -> Result<VerdictRow> {
    let (promise, leaf) = written.split_once(" rests ").context("no leaf")?;
    let mut row = row_of(alloc, Verdict::Contingent, promise)?;
    row.leaf = Some(link_of(alloc, leaf)?);
    Ok(row)
}

fn verdict_of(alloc: Global, written: &str) -> Result<VerdictRow> {
    let (verdict, rest) = first_word(written);
    match verdict {
        "firm" => row_of(alloc, Verdict::Firm, rest),
        "inconsistent" => blamed(alloc, rest),
        "contingent" => resting(alloc, rest),
        _ => bail!("no verdict {verdict}"),
    }
}

fn clause_of(alloc: Global, key: &str, subject: &str) -> Result<Finding> {
    Ok(Finding {
        key: finding_of(alloc, key)?,
        place: 1,
        subject: Text::from_text(alloc, subject)?,
        alternatives: Items::new(alloc),
    })
}

// `KEY at PATH:LINE SUBJECT`.
fn finding_row(alloc: Global, written: &str, fails: bool) -> Result<FindingRow> {
    let (key, rest) = written.split_once(" at ").context("no place")?;
    let (place, subject) = first_word(rest);
    let (path, line) = place.split_once(':').context("no line")?;
    let line = line.parse::<u32>()?;
    Ok(FindingRow {
        finding: clause_of(alloc, key, subject)?,
        path: Bytes::from_slice(alloc, path.as_bytes())?,
        line,
        fails,
    })
}

fn set_sizes(answers: &mut Answers, written: &str) -> Result<()> {
    let (files, rest) = first_word(written);
    let (types, units) = first_word(rest);
    answers.files = files.parse::<u32>()?;
    answers.types = types.parse::<u32>()?;
    answers.units = units.parse::<u32>()?;
    Ok(())
}

fn add_part(alloc: Global, answers: &mut Answers, written: &str) -> Result<()> {
    let (sort, rest) = first_word(written);
    match sort {
        "sizes" => set_sizes(answers, rest)?,
        "held" => answers.findings.push(finding_row(alloc, rest, false)?)?,
        "failing" => answers.findings.push(finding_row(alloc, rest, true)?)?,
        _ => answers.verdicts.push(verdict_of(alloc, written)?)?,
    }
    Ok(())
}

fn put_report(alloc: Global, out: &mut String, written: &str) -> Result<()> {
    let mut answers = Answers {
        files: 0,
        types: 0,
        units: 0,
        findings: Items::new(alloc),
        verdicts: Items::new(alloc),
    };
    for part in written.split("; ") {
        add_part(alloc, &mut answers, part)?;
    }
    put_bytes(out, report_text(alloc, &answers)?.as_slice())
}

/// Whether a text is a bundle, the report of answers, or the line of a verdict.
pub(crate) fn put_case(alloc: Global, out: &mut String, words: &str, line: &str) -> Result<()> {
    match words {
        "of answers" => put_report(alloc, out, line),
        "of a verdict" => {
            let row = verdict_of(alloc, line)?;
            put_bytes(out, verdict_line(alloc, &row)?.as_slice())
        }
        "on bytes" => put_bundle(alloc, out, text_of(alloc, line)?.as_slice()),
        _ => bail!("no cases of report {words}"),
    }
}
