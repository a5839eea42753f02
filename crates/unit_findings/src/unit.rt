ghost use Rattle.std.specs.Prelude.{◌≡◌, ◌++◌, ◌∷◌, [], IfOk, OnOk, map};
ghost use Rattle.std.specs.Option.{option_copied};
ghost use Rattle.unit_findings.specs.Findings as spec;
ghost use Rattle.unit_findings.specs.Promises.{aside_findings, standing_findings};
ghost use Rattle.unit_findings.specs.Vouches.{vouched};

use crate::list::into_vec;
use crate::making::{aside_finding, standing_finding};
use crate::promise::UnitPromise;
use crate::vouch::vouched;
use desk_base::{Items, OutOfMemory, Text};
use finding_order::put_in_order;
use result_records::Finding;
use std::alloc::Global;

fn standing_of(
    alloc: Global,
    unit: &Text,
    promises: &[UnitPromise],
) -> Result<Items<Finding>, OutOfMemory>
    ensures { IfOk result (λ found. found ≡ standing_findings unit.now promises.now) }
{
    let mut found = Items::new(alloc);
    for promise in promises {
        found.push(standing_finding(alloc, unit, &promise.key)?)?;
    }
    Ok(found)
}

fn put_aside(
    alloc: Global,
    unit: &Text,
    vouch: Option<&Text>,
    promise: &UnitPromise,
    out: &mut Items<Finding>,
) -> Result<(), OutOfMemory>
    ensures { OnOk result (out.new ≡ out.old ++ map (vouched (option_copied vouch.entry)) (aside_findings unit.now (promise.now ∷ []))) }
{
    if let Some(fault) = promise.fault {
        let finding = aside_finding(alloc, unit, fault, promise)?;
        out.push(vouched(alloc, vouch, finding)?)?;
    }
    Ok(())
}

fn put_asides(
    alloc: Global,
    unit: &Text,
    vouch: Option<&Text>,
    promises: &[UnitPromise],
    out: &mut Items<Finding>,
) -> Result<(), OutOfMemory>
    ensures { OnOk result (out.new ≡ out.old ++ map (vouched (option_copied vouch.entry)) (aside_findings unit.now promises.now)) }
{
    for promise in promises {
        put_aside(alloc, unit, vouch, promise, out)?;
    }
    Ok(())
}

fn put_found(
    alloc: Global,
    vouch: Option<&Text>,
    found: Items<Finding>,
    out: &mut Items<Finding>,
) -> Result<(), OutOfMemory>
    ensures { OnOk result (out.new ≡ out.old ++ map (vouched (option_copied vouch.entry)) found) }
{
    for finding in into_vec(alloc, found)? {
        out.push(vouched(alloc, vouch, finding)?)?;
    }
    Ok(())
}

fn others_of(
    alloc: Global,
    unit: &Text,
    vouch: Option<&Text>,
    promises: &[UnitPromise],
    found: Items<Finding>,
) -> Result<Items<Finding>, OutOfMemory>
    ensures { IfOk result (λ others. others ≡ spec.others unit.now (option_copied vouch.entry) promises.now found) }
{
    let mut others = Items::new(alloc);
    put_asides(alloc, unit, vouch, promises, &mut others)?;
    put_found(alloc, vouch, found, &mut others)?;
    Ok(others)
}

/// The findings of a unit. `promises` are the promises of the unit, those that stand and those that are
/// set aside; `found` is what binding and the analyses found; `vouch` is the unit where the vouch that
/// counts here is written, if there is one.
///
/// First comes, for each promise in order, that it is one of the project. Then come in order of place,
/// code and promise what is set aside and what was found; those that are alike in these stay as they
/// were. Those of one code and promise are numbered from 1. One that fails, on another promise than
/// `Program`, holds by the vouch.
pub fn unit_findings(
    alloc: Global,
    unit: &Text,
    vouch: Option<&Text>,
    promises: &[UnitPromise],
    found: Items<Finding>,
) -> Result<Items<Finding>, OutOfMemory>
    ensures { IfOk result (λ list. list ≡ spec.unit_findings unit.now (option_copied vouch.entry) promises.now found) }
{
    let mut list = Items::new(alloc);
    put_in_order(alloc, standing_of(alloc, unit, promises)?, &mut list)?;
    let others = others_of(alloc, unit, vouch, promises, found)?;
    put_in_order(alloc, others, &mut list)?;
    Ok(list)
}
