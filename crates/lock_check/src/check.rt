ghost use Rattle.std.specs.Prelude.{◌≡◌, ◌++◌, IfOk, OnOk, OnErr};
ghost use Rattle.bound_unit.specs.Front.{Begins};
ghost use Rattle.lock_check.specs.Judged as spec;

use crate::owned::own_of;
use crate::roles::role_of;
use crate::shown::ShownLocks;
use bound_unit::{Analysis, BoundUnit};
use desk_base::{Items, OutOfMemory};
use finding_order::put_in_order;
use lock_findings::judge_unit;
use result_records::Finding;
use std::alloc::Global;
use views::View;

/// The check of locks. For a unit it gives the findings `L01` to `L06`, and `N01` on promises that
/// require a lock: by place, then by code, then by promise, each with its number among those of its
/// code and promise.
#[derive(Clone, Copy, Debug)]
pub struct LockCheck;

/// The findings in the order in which they are made, not numbered yet.
fn found(alloc: Global, unit: &BoundUnit, view: &View<'_>) -> Result<Items<Finding>, OutOfMemory>
    ensures { IfOk result (λ found. found ≡ spec.found unit.now view.now) }
{
    let own = own_of(alloc, view, unit)?;
    let role = role_of(alloc, view, unit.key(), unit.tree())?;
    let mut found = Items::new(alloc);
    judge_unit(
        alloc,
        &ShownLocks { view },
        &own,
        &role,
        unit.tree(),
        &mut found,
    )?;
    Ok(found)
}

impl Analysis for LockCheck {
    ghost use Rattle.lock_check.specs.Judged.{findings};
    ghost use Rattle.lock_check.specs.Local.{findings_local};

    ghost findings = { findings };

    fn judge(
        &self,
        alloc: Global,
        unit: &BoundUnit,
        view: &View<'_>,
        out: &mut Items<Finding>,
    ) -> Result<(), OutOfMemory> {
        let found = found(alloc, unit, view)?;
        put_in_order(alloc, found, out)
    }

    ghost local = { findings_local };
}
