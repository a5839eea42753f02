ghost use Rattle.std.specs.Prelude.{◌≡◌, length, IfErr, IfOk, OnOk, Some};
ghost use Rattle.region_tree.specs.Faults.{AllPlaced, IsFieldFault, IsPlaced, PutFault};
ghost use Rattle.region_tree.specs.Names.{Numbered, Places};
ghost use Rattle.region_tree.specs.Regions.{field_region, number_of};

use crate::decl::{FieldPut, RegionDecl};
use crate::fault::RegionError;
use crate::names::{kind_of_number, number_written, put_first};
use desk_base::Name;
use std::alloc::Global;
use std::collections::BTreeMap;

fn number_placed(
    declared: &[RegionDecl],
    numbers: &BTreeMap<Name, usize>,
    put: &FieldPut,
) -> Result<usize, RegionError>
    requires { Numbered numbers.now declared.now }
    ensures placed { OnOk result (IsPlaced declared.now put.now) }
    ensures number { IfOk result (λ n. number_of declared.now (field_region put.now) ≡ Some n) }
    ensures fault { IfErr result (PutFault declared.now put.now) }
{
    let Some(number) = number_written(numbers, &put.region, put.is_static) else {
        let name = put.field.clone()?;
        return Err(RegionError::FieldRegion { name });
    };
    if kind_of_number(declared, number) != Some(put.is_static) {
        let name = put.field.clone()?;
        return Err(RegionError::FieldRegion { name });
    }
    Ok(number)
}

/// The regions of the fields; of two fields of one name the first counts.
pub(crate) fn place_fields(
    alloc: Global,
    declared: &[RegionDecl],
    numbers: &BTreeMap<Name, usize>,
    fields: &[FieldPut],
) -> Result<BTreeMap<Name, usize>, RegionError>
    requires { Numbered numbers.now declared.now }
    ensures placed { OnOk result (AllPlaced declared.now fields.now (length fields.now)) }
    ensures places { IfOk result (λ places. Places places declared.now fields.now) }
    ensures fault { IfErr result (IsFieldFault declared.now fields.now) }
{
    let mut places = BTreeMap::new(alloc);
    for put in fields {
        let number = number_placed(declared, numbers, put)?;
        put_first(&mut places, put.field.clone()?, number)?;
    }
    Ok(places)
}
