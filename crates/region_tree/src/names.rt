ghost use Rattle.std.specs.Prelude.{◌≡◌, IfOk, OnOk};
ghost use Rattle.std.specs.List.{slice_get};
ghost use Rattle.region_tree.specs.Names.{Numbered, PutsFirst, number_found};
ghost use Rattle.region_tree.specs.Regions.{kind_of, name_or_root, parents_of, region_kinds};

use crate::decl::RegionDecl;
use desk_base::{Name, OutOfMemory};
use std::alloc::Global;
use std::collections::BTreeMap;

// Gives a name that isn't there a number.
pub(crate) fn put_first(
    numbers: &mut BTreeMap<Name, usize>,
    name: Name,
    number: usize,
) -> Result<(), OutOfMemory>
    ensures { OnOk result (PutsFirst numbers.old numbers.new name number) }
{
    if !numbers.contains_key(&name) {
        numbers.insert(name, number)?;
    }
    Ok(())
}

/// The numbers of all regions; a name has that of the first one.
pub fn number_names(
    alloc: Global,
    declared: &[RegionDecl],
) -> Result<BTreeMap<Name, usize>, OutOfMemory>
    ensures { IfOk result (λ numbers. Numbered numbers declared.now) }
{
    let mut numbers = BTreeMap::new(alloc);
    put_first(&mut numbers, Name::from_slice(alloc, b"Instance")?, 0)?;
    put_first(&mut numbers, Name::from_slice(alloc, b"Static")?, 1)?;
    for (i, decl) in declared.iter().enumerate() {
        put_first(&mut numbers, decl.name.clone()?, i + 2)?;
    }
    Ok(numbers)
}

// The number of the region that is written, or of the root of the kind where none is.
pub(crate) fn number_written(
    numbers: &BTreeMap<Name, usize>,
    name: &Option<Name>,
    is_static: bool,
) -> Option<usize>
    ensures { result ≡ number_found numbers.now name.now is_static }
{
    match name {
        Some(name) => numbers.get(name).copied(),
        None => Some(if is_static { 1 } else { 0 }),
    }
}

/// Whether the region of a number is static, where there is one.
pub fn kind_of_number(declared: &[RegionDecl], number: usize) -> Option<bool>
    ensures { result ≡ slice_get (region_kinds declared.now) number }
{
    if number < 2 {
        return Some(number == 1);
    }
    let decl = declared.get(number - 2)?;
    Some(decl.is_static)
}

// Whether the region that is written is static, where there is one.
pub(crate) fn kind_written(
    declared: &[RegionDecl],
    numbers: &BTreeMap<Name, usize>,
    name: &Option<Name>,
    is_static: bool,
) -> Option<bool>
    requires { Numbered numbers.now declared.now }
    ensures { result ≡ kind_of declared.now (name_or_root name.now is_static) }
{
    let number = number_written(numbers, name, is_static)?;
    kind_of_number(declared, number)
}

/// The parents of all regions by their numbers.
pub fn find_parents(
    alloc: Global,
    declared: &[RegionDecl],
    numbers: &BTreeMap<Name, usize>,
) -> Result<Vec<Option<usize>>, OutOfMemory>
    requires { Numbered numbers.now declared.now }
    ensures { IfOk result (λ parents. parents.items ≡ parents_of declared.now) }
{
    let mut parents = Vec::new(alloc);
    parents.push(None)?;
    parents.push(None)?;
    for decl in declared {
        parents.push(number_written(numbers, &decl.parent, decl.is_static))?;
    }
    Ok(parents)
}
