ghost use Rattle.std.specs.Prelude.{◌≡◌, IfOk, OnOk};
ghost use Rattle.header_scrub.specs.Kinds.{HasKinds, PutsKind, lock_kind, region_kind};

use crate::lock::Lock;
use desk_base::{Name, OutOfMemory};
use region_tree::RegionDecl;
use std::alloc::Global;
use std::collections::BTreeMap;

// Gives a name that isn't there a kind.
fn put_first(
    kinds: &mut BTreeMap<Name, bool>,
    name: Name,
    is_static: bool,
) -> Result<(), OutOfMemory>
    ensures { OnOk result (PutsKind kinds.old kinds.new name is_static) }
{
    if !kinds.contains_key(&name) {
        kinds.insert(name, is_static)?;
    }
    Ok(())
}

/// Whether each region is static, by its name.
pub(crate) fn region_kinds(
    alloc: Global,
    declared: &[RegionDecl],
) -> Result<BTreeMap<Name, bool>, OutOfMemory>
    ensures { IfOk result (λ kinds. HasKinds kinds (region_kind declared.now)) }
{
    let mut kinds = BTreeMap::new(alloc);
    put_first(&mut kinds, Name::from_slice(alloc, b"Instance")?, false)?;
    put_first(&mut kinds, Name::from_slice(alloc, b"Static")?, true)?;
    for decl in declared {
        put_first(&mut kinds, decl.name.clone()?, decl.is_static)?;
    }
    Ok(kinds)
}

/// Whether each lock is static, by its name.
pub(crate) fn lock_kinds(alloc: Global, locks: &[Lock]) -> Result<BTreeMap<Name, bool>, OutOfMemory>
    ensures { IfOk result (λ kinds. HasKinds kinds (lock_kind locks.now)) }
{
    let mut kinds = BTreeMap::new(alloc);
    for lock in locks {
        put_first(&mut kinds, lock.name.clone()?, lock.is_static)?;
    }
    Ok(kinds)
}
