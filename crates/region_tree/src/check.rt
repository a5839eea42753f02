ghost use Rattle.std.specs.Prelude.{◌≡◌, length, IfErr, OnOk, Some};
ghost use Rattle.std.specs.List.{slice_get};
ghost use Rattle.region_tree.specs.Faults.{AllGood, DeclFault, IsDeclFault, IsGood};
ghost use Rattle.region_tree.specs.Marks.{Known};
ghost use Rattle.region_tree.specs.Names.{Numbered};
ghost use Rattle.region_tree.specs.Regions.{parents_of};

use crate::climb::Climber;
use crate::decl::RegionDecl;
use crate::fault::RegionError;
use crate::names::kind_written;
use desk_base::Name;
use std::collections::BTreeMap;

fn check_decl(
    declared: &[RegionDecl],
    numbers: &BTreeMap<Name, usize>,
    climber: &Climber,
    i: usize,
    decl: &RegionDecl,
) -> Result<(), RegionError>
    requires numbered { Numbered numbers.now declared.now }
    requires parents { climber.now.parents.items ≡ parents_of declared.now }
    requires known { Known climber.now.parents.items climber.now.marks.items climber.now.next }
    requires there { slice_get declared.now i ≡ Some decl.now }
    ensures good { OnOk result (IsGood declared.now i decl.now) }
    ensures fault { IfErr result (DeclFault declared.now i decl.now) }
{
    let number = i + 2;
    if numbers.get(&decl.name).copied() != Some(number) {
        let name = decl.name.clone()?;
        return Err(RegionError::Repeated { name });
    }
    match kind_written(declared, numbers, &decl.parent, decl.is_static) {
        None => {
            let name = decl.name.clone()?;
            Err(RegionError::UnknownParent { name })
        }
        Some(kind) if kind != decl.is_static => {
            let name = decl.name.clone()?;
            Err(RegionError::Mixed { name })
        }
        Some(_) if climber.is_rooted(number) => Ok(()),
        Some(_) => {
            let name = decl.name.clone()?;
            Err(RegionError::Cycle { name })
        }
    }
}

/// Looks at each declaration in order.
pub(crate) fn check_declared(
    declared: &[RegionDecl],
    numbers: &BTreeMap<Name, usize>,
    climber: &Climber,
) -> Result<(), RegionError>
    requires numbered { Numbered numbers.now declared.now }
    requires parents { climber.now.parents.items ≡ parents_of declared.now }
    requires known { Known climber.now.parents.items climber.now.marks.items climber.now.next }
    ensures good { OnOk result (AllGood declared.now (length declared.now)) }
    ensures fault { IfErr result (IsDeclFault declared.now) }
{
    for (i, decl) in declared.iter().enumerate() {
        check_decl(declared, numbers, climber, i, decl)?;
    }
    Ok(())
}
