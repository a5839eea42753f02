ghost use Rattle.std.specs.Prelude.{◌≡◌, ◌++◌, IfOk, OnOk};
ghost use Rattle.report.specs.Rows.{vouch_bytes, link_bytes, rests_part, blame_part, reason_part, verdict_part, verdict_bytes};

use crate::answers::VerdictRow;
use consistency::Verdict;
use desk_base::{Bytes, OutOfMemory, PromiseName};
use result_records::{FindingKey, FindingLink, Put, VouchKey, put_key, put_promise};
use std::alloc::Global;

fn put_named(out: &mut Bytes, label: &str, name: &str) -> Result<(), OutOfMemory>
    ensures { OnOk result (out.new ≡ out.old ++ (label.now ++ name.now)) }
{
    out.put(label)?;
    out.put(name)
}

fn put_vouch(out: &mut Bytes, key: &VouchKey) -> Result<(), OutOfMemory>
    ensures { OnOk result (out.new ≡ out.old ++ vouch_bytes key.now) }
{
    match key {
        VouchKey::Source { unit } => put_named(out, "vouch-in ", unit.as_str()),
        VouchKey::Desk { finding } => put_named(out, "vouch-desk ", finding.as_str()),
    }
}

fn put_link(out: &mut Bytes, link: &FindingLink) -> Result<(), OutOfMemory>
    ensures { OnOk result (out.new ≡ out.old ++ link_bytes link.now) }
{
    match link {
        FindingLink::Promise(key) => put_promise(out, key),
        FindingLink::Vouched(key) => put_vouch(out, key),
        FindingLink::Assumed { class, promise } => {
            out.put("assume-in ")?;
            out.append(class.as_slice())?;
            out.put(" ")?;
            put_promise(out, promise)
        }
    }
}

fn put_rests(out: &mut Bytes, leaf: &Option<FindingLink>) -> Result<(), OutOfMemory>
    ensures { OnOk result (out.new ≡ out.old ++ rests_part leaf.now) }
{
    match leaf {
        Some(leaf) => {
            out.put(" rests ")?;
            put_link(out, leaf)
        }
        None => Ok(()),
    }
}

fn put_blame(out: &mut Bytes, blame: &Option<FindingKey>) -> Result<(), OutOfMemory>
    ensures { OnOk result (out.new ≡ out.old ++ blame_part blame.now) }
{
    match blame {
        Some(finding) => {
            out.put(" blame ")?;
            put_key(out, finding)
        }
        None => Ok(()),
    }
}

fn put_reason(out: &mut Bytes, row: &VerdictRow) -> Result<(), OutOfMemory>
    ensures { OnOk result (out.new ≡ out.old ++ reason_part row.now.verdict row.now.blame row.now.leaf) }
{
    match row.verdict {
        Verdict::Firm => Ok(()),
        Verdict::Contingent => put_rests(out, &row.leaf),
        Verdict::Inconsistent => put_blame(out, &row.blame),
    }
}

fn put_judged(out: &mut Bytes, row: &VerdictRow) -> Result<(), OutOfMemory>
    ensures { OnOk result (out.new ≡ out.old ++ verdict_part row.now) }
{
    if row.key.name == PromiseName::Program {
        out.put("program ")?;
        return out.put(row.verdict.text());
    }
    out.put(row.verdict.text())?;
    out.put(" ")?;
    put_promise(out, &row.key)
}

/// Puts the verdict's line at the end, with its line feed.
pub(crate) fn put_verdict(out: &mut Bytes, row: &VerdictRow) -> Result<(), OutOfMemory>
    ensures { OnOk result (out.new ≡ out.old ++ verdict_bytes row.now) }
{
    put_judged(out, row)?;
    put_reason(out, row)?;
    out.put("\n")
}

/// The line of the verdict in a report, with its line feed: `program VERDICT` for `Program`, else
/// `VERDICT KEY`. A contingent verdict goes on with ` rests ` and what it rests on, an inconsistent
/// one with ` blame ` and the finding; where the row names none, nothing follows.
pub fn verdict_line(alloc: Global, row: &VerdictRow) -> Result<Bytes, OutOfMemory>
    ensures { IfOk result (λ line. line ≡ verdict_bytes row.now) }
{
    let mut line = Bytes::new(alloc);
    put_verdict(&mut line, row)?;
    Ok(line)
}
