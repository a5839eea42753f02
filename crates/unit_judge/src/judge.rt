ghost use Rattle.std.specs.Prelude.{◌≡◌, IfOk};
ghost use Rattle.unit_judge.specs.Judged as spec;

use crate::copies::findings_copy;
use crate::promises::unit_promises;
use bound_unit::{Analysis, BoundUnit};
use class_faces::text_of;
use desk_base::{Items, OutOfMemory};
use lock_check::LockCheck;
use promise_scrub::Aside;
use result_records::Finding;
use std::alloc::Global;
use unit_findings::{source_vouch, unit_findings};
use views::View;

/// What binding found, and then what the analyses find.
fn found(alloc: Global, unit: &BoundUnit, view: &View<'_>) -> Result<Items<Finding>, OutOfMemory>
    ensures { IfOk result (λ found. found ≡ spec.found unit.now view.now) }
{
    let mut found = findings_copy(alloc, unit.bind_findings())?;
    LockCheck.judge(alloc, unit, view, &mut found)?;
    Ok(found)
}

/// The findings of a bound unit under a view, in order and numbered; `asides` is what its class's surface
/// sets aside. Its one error is want of memory.
pub fn judge_bound(
    alloc: Global,
    unit: &BoundUnit,
    view: &View<'_>,
    asides: &[Aside],
) -> Result<Items<Finding>, OutOfMemory>
    ensures { IfOk result (λ found. found ≡ spec.unit_found asides.now unit.now view.now) }
{
    let class = &unit.tree().class;
    let header = text_of(alloc, class.as_slice())?;
    let promises = unit_promises(alloc, unit, view, asides)?;
    let found = found(alloc, unit, view)?;
    let vouch = source_vouch(
        unit.key(),
        view.is_vouched(class, unit.key()),
        &header,
        view.is_vouched(class, &header),
    );
    unit_findings(alloc, unit.key(), vouch, promises.as_slice(), found)
}
