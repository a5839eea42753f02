ghost use Rattle.std.specs.Prelude.{◌≡◌, All, Contains, IfOk, List};
ghost use Rattle.std.specs.List.{AllZip};
ghost use Rattle.std.specs.Option.{option_copied};
ghost use Rattle.desk_base.specs.declared.key.PromiseKey.{PromiseKey as Key};
ghost use Rattle.result_records.specs.declared.finding.Finding.{Finding as Found};
ghost use Rattle.consistency.specs.Verdicts.{VerdictsOf};
ghost use Rattle.project_answers.specs.Judged.{IsKnown, IsRowOf};

use consistency::Verdicts;
use desk_base::{Items, OutOfMemory, PromiseKey};
use report::VerdictRow;
use result_records::{FindingKey, FindingLink};
use std::alloc::Global;

fn key_copy(key: &PromiseKey) -> Result<PromiseKey, OutOfMemory>
    ensures { IfOk result (λ copy. copy ≡ key.now) }
{
    Ok(key.clone()?)
}

fn blame_copy(blame: Option<&FindingKey>) -> Result<Option<FindingKey>, OutOfMemory>
    ensures { IfOk result (λ copy. copy ≡ option_copied blame.entry) }
{
    match blame {
        Some(finding) => Ok(Some(finding.clone()?)),
        None => Ok(None),
    }
}

fn leaf_copy(leaf: Option<&FindingLink>) -> Result<Option<FindingLink>, OutOfMemory>
    ensures { IfOk result (λ copy. copy ≡ option_copied leaf.entry) }
{
    match leaf {
        Some(link) => Ok(Some(link.clone()?)),
        None => Ok(None),
    }
}

fn verdict_row(verdicts: &Verdicts, key: &PromiseKey) -> Result<VerdictRow, OutOfMemory>
    requires { IsKnown verdicts.now key.now }
    ensures { IfOk result (λ row. (ps : List Key) (fs : List Found) → VerdictsOf ps fs verdicts.now → Contains ps key.now → IsRowOf ps fs key.now row) }
{
    let verdict = match verdicts.verdict(key) {
        Some(verdict) => verdict,
        None => unreachable!(),
    };
    let blame = blame_copy(verdicts.blame(key))?;
    let leaf = leaf_copy(verdicts.leaf(key))?;
    Ok(VerdictRow {
        key: key_copy(key)?,
        verdict,
        blame,
        leaf,
    })
}

/// The rows of the verdicts on promises of the graph, in their order.
pub(crate) fn verdict_rows(
    alloc: Global,
    verdicts: &Verdicts,
    promises: &[PromiseKey],
) -> Result<Items<VerdictRow>, OutOfMemory>
    requires { All (IsKnown verdicts.now) promises.now }
    ensures { IfOk result (λ rows. (fs : List Found) → VerdictsOf promises.now fs verdicts.now → AllZip (IsRowOf promises.now fs) promises.now rows) }
{
    let mut rows = Items::new(alloc);
    for key in promises {
        rows.push(verdict_row(verdicts, key)?)?;
    }
    Ok(rows)
}
