ghost use Rattle.std.specs.Prelude.{◌≡◌, IfOk};
ghost use Rattle.unit_findings.specs.Promises as spec;

use crate::promise::UnitPromise;
use desk_base::{Items, OutOfMemory, PromiseKey, PromiseName, Text};
use result_records::{Alternative, Finding, FindingCode, FindingKey, FindingLink};
use std::alloc::Global;

/// One way, which has one link.
pub(crate) fn only(alloc: Global, link: FindingLink) -> Result<Items<Alternative>, OutOfMemory>
    ensures { IfOk result (λ ways. ways ≡ spec.only link) }
{
    let mut way = Items::new(alloc);
    way.push(link)?;
    let mut ways = Items::new(alloc);
    ways.push(way)?;
    Ok(ways)
}

fn program_key(alloc: Global) -> PromiseKey
    ensures { result ≡ spec.program_key }
{
    PromiseKey {
        target: Text::new(alloc),
        name: PromiseName::Program,
        detail: Text::new(alloc),
    }
}

fn finding_on(
    alloc: Global,
    unit: &Text,
    code: FindingCode,
    on: &PromiseKey,
    place: u32,
    alternatives: Items<Alternative>,
) -> Result<Finding, OutOfMemory>
    ensures { IfOk result (λ found. found ≡ spec.finding_on unit.now code on.now place alternatives) }
{
    let key = FindingKey {
        code,
        number: 0,
        unit: unit.clone()?,
        on: on.clone()?,
    };
    let subject = Text::from_text(alloc, on.name.text())?;
    Ok(Finding {
        key,
        place,
        subject,
        alternatives,
    })
}

/// The finding that a promise is one of the project: it holds where `Program` does.
pub(crate) fn standing_finding(
    alloc: Global,
    unit: &Text,
    on: &PromiseKey,
) -> Result<Finding, OutOfMemory>
    ensures { IfOk result (λ found. found ≡ spec.standing_finding unit.now on.now) }
{
    let ways = only(alloc, FindingLink::Promise(program_key(alloc)))?;
    finding_on(alloc, unit, FindingCode::Standing, on, 1, ways)
}

/// The finding that a promise is set aside: nothing makes it hold.
pub(crate) fn aside_finding(
    alloc: Global,
    unit: &Text,
    fault: FindingCode,
    promise: &UnitPromise,
) -> Result<Finding, OutOfMemory>
    ensures { IfOk result (λ found. found ≡ spec.aside_finding unit.now fault promise.now) }
{
    finding_on(
        alloc,
        unit,
        fault,
        &promise.key,
        promise.place,
        Items::new(alloc),
    )
}
