ghost use Rattle.std.specs.Prelude.{◌≡◌, ◌++◌, ◌∷◌, [], ◌+◌, List, IfOk, OnOk, OnErr};
ghost use Rattle.result_records.specs.declared.finding.Finding.{Finding as Kept};
ghost use Rattle.finding_order.specs.Front.{Begins};
ghost use Rattle.finding_order.specs.Numbers as spec;

use crate::order::sorted;
use desk_base::{Items, OutOfMemory, PromiseKey};
use result_records::{Finding, FindingCode};
use std::alloc::Global;
use std::collections::BTreeMap;

/// A code and a promise, among the findings of which one is numbered.
#[derive(PartialEq, Eq, PartialOrd, Ord, Drop)]
pub(crate) struct Group {
    code: FindingCode,
    on: PromiseKey,
}

fn group_of(finding: &Finding) -> Result<Group, OutOfMemory>
    ensures { IfOk result (λ group. group ≡ spec.group_of finding.now) }
{
    let on = finding.key.on.clone()?;
    Ok(Group {
        code: finding.key.code,
        on,
    })
}

/// Counts a code and promise once more: how often it has come.
fn count_group(counts: &mut BTreeMap<Group, u32>, group: Group) -> Result<u32, OutOfMemory>
    ensures { IfOk result (λ k. (before : List Kept) → spec.Counts counts.old before → spec.Counted counts.new before group k) }
{
    let before = counts.get(&group).copied().unwrap_or(0);
    let times = before.checked_add(1).ok_or(OutOfMemory)?;
    counts.insert(group, times)?;
    Ok(times)
}

/// The finding with the next number of its code and promise.
fn numbered(counts: &mut BTreeMap<Group, u32>, mut finding: Finding) -> Result<Finding, OutOfMemory>
    ensures { IfOk result (λ done. (before : List Kept) → spec.Counts counts.old before → spec.Numbered counts.new before finding done) }
{
    let group = group_of(&finding)?;
    finding.key.number = count_group(counts, group)?;
    Ok(finding)
}

/// Puts the findings of a unit at the end: by place, then by code, then by promise, those that are
/// alike in these in the order in which they were made, each with its number among those of its code
/// and promise. After want of memory what was there still stands in front.
#[tactic(auto, using(crate::proofs::Front::fronts))]
pub fn put_in_order(
    alloc: Global,
    findings: Items<Finding>,
    out: &mut Items<Finding>,
) -> Result<(), OutOfMemory>
    ensures ok { OnOk result (out.new ≡ out.old ++ spec.in_order findings) }
    ensures front { OnErr result (Begins out.old out.new) }
{
    let mut counts = BTreeMap::new(alloc);
    for finding in sorted(alloc, findings)? {
        out.push(numbered(&mut counts, finding)?)?;
    }
    Ok(())
}
