ghost use Rattle.std.specs.Prelude.{◌≡◌, ◌++◌, IfOk, OnOk, filter};
ghost use Rattle.finding_order.specs.Order.{ordered};
ghost use Rattle.project_answers.specs.Gathered as spec;

use crate::sited::Sited;
use desk_base::{OutOfMemory, Text};
use result_records::FindingCode;
use std::alloc::Global;

/// A unit by its key, with its findings in order.
#[derive(Drop)]
pub struct UnitFound {
    pub key: Text,
    pub found: Vec<Sited>,
}

/// Whether a finding says that a promise is one of the project, and no more.
pub(crate) fn is_standing(sited: &Sited) -> bool
    ensures { result ≡ spec.is_standing sited.now }
{
    sited.finding.key.code == FindingCode::Standing
}

fn put_unit(
    found: Vec<Sited>,
    firsts: &mut Vec<Sited>,
    others: &mut Vec<Sited>,
) -> Result<(), OutOfMemory>
    ensures firsts { OnOk result (firsts.new.items ≡ firsts.old.items ++ filter spec.is_standing found.items) }
    ensures others { OnOk result (others.new.items ≡ others.old.items ++ filter spec.says_more found.items) }
{
    for sited in found {
        if is_standing(&sited) {
            firsts.push(sited)?;
        } else {
            others.push(sited)?;
        }
    }
    Ok(())
}

fn put_units(
    units: Vec<UnitFound>,
    firsts: &mut Vec<Sited>,
    others: &mut Vec<Sited>,
) -> Result<(), OutOfMemory>
    ensures firsts { OnOk result (firsts.new.items ≡ firsts.old.items ++ filter spec.is_standing (spec.all_found units.items)) }
    ensures others { OnOk result (others.new.items ≡ others.old.items ++ filter spec.says_more (spec.all_found units.items)) }
{
    for unit in units {
        put_unit(unit.found, firsts, others)?;
    }
    Ok(())
}

fn sort_units(units: &mut Vec<UnitFound>) -> Result<(), OutOfMemory>
    ensures { OnOk result (units.new.items ≡ ordered spec.unit_before units.old.items) }
{
    units.sort_by(|a, b| a.key.cmp(&b.key))?;
    Ok(())
}

fn sort_firsts(firsts: &mut Vec<Sited>) -> Result<(), OutOfMemory>
    ensures { OnOk result (firsts.new.items ≡ ordered spec.first_before firsts.old.items) }
{
    firsts.sort_by(|a, b| a.finding.key.on.cmp(&b.finding.key.on))?;
    Ok(())
}

/// The findings of a project, of those of its units: first, in the order of promises, that each promise
/// is one of the project, then all others, one unit after another in the order of their keys.
pub fn project_findings(alloc: Global, units: Vec<UnitFound>) -> Result<Vec<Sited>, OutOfMemory>
    ensures { IfOk result (λ found. found.items ≡ spec.project_findings units.items) }
{
    let mut units = units;
    let mut firsts = Vec::new(alloc);
    let mut others = Vec::new(alloc);
    sort_units(&mut units)?;
    put_units(units, &mut firsts, &mut others)?;
    sort_firsts(&mut firsts)?;
    firsts.append(&mut others)?;
    Ok(firsts)
}
