ghost use Rattle.std.specs.Prelude.{◌≡◌, ◌++◌, IfOk, OnOk};

use desk_base::{Items, OutOfMemory};
use result_records::{Alternative, Finding};
use std::alloc::Global;

fn way_copy(alloc: Global, way: &Alternative) -> Result<Alternative, OutOfMemory>
    ensures { IfOk result (λ copy. copy ≡ way.now) }
{
    let mut copy = Items::new(alloc);
    for link in way.as_slice() {
        copy.push(link.clone()?)?;
    }
    Ok(copy)
}

fn ways_copy(alloc: Global, ways: &[Alternative]) -> Result<Items<Alternative>, OutOfMemory>
    ensures { IfOk result (λ copy. copy ≡ ways.now) }
{
    let mut copy = Items::new(alloc);
    for way in ways {
        copy.push(way_copy(alloc, way)?)?;
    }
    Ok(copy)
}

fn finding_copy(alloc: Global, finding: &Finding) -> Result<Finding, OutOfMemory>
    ensures { IfOk result (λ copy. copy ≡ finding.now) }
{
    let alternatives = ways_copy(alloc, finding.alternatives.as_slice())?;
    Ok(Finding {
        key: finding.key.clone()?,
        place: finding.place,
        subject: finding.subject.clone()?,
        alternatives,
    })
}

/// Copies of findings, in their order.
pub(crate) fn findings_copy(
    alloc: Global,
    findings: &[Finding],
) -> Result<Items<Finding>, OutOfMemory>
    ensures { IfOk result (λ copy. copy ≡ findings.now) }
{
    let mut copy = Items::new(alloc);
    for finding in findings {
        copy.push(finding_copy(alloc, finding)?)?;
    }
    Ok(copy)
}
