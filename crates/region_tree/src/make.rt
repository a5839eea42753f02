ghost use Rattle.std.specs.Prelude.{◌≡◌, ℕ, List, length, IfErr, IfOk, OnOk};
ghost use Rattle.region_tree.specs.Faults.{AllGood, AllPlaced, IsFault};
ghost use Rattle.region_tree.specs.Regions.{number_of, parents_of, place_of};
ghost use Rattle.region_tree.specs.Tree.{parents_in, place_in, region_in};

use crate::check::check_declared;
use crate::climb::Climber;
use crate::decl::{FieldPut, RegionDecl};
use crate::fault::RegionError;
use crate::names::{find_parents, number_names};
use crate::place::place_fields;
use crate::tree::RegionTree;
use std::alloc::Global;

/// The tree of these regions and fields. The roots are `Instance` and `Static`: a declaration that
/// names no parent hangs under the root of its kind, and a field that names no region is in it. Of
/// two fields of one name the first counts. An error names the first faulty declaration and, where
/// all are good, the first faulty field.
pub fn build(
    alloc: Global,
    declared: &[RegionDecl],
    fields: &[FieldPut],
) -> Result<RegionTree, RegionError>
    ensures good { OnOk result (AllGood declared.now (length declared.now)) }
    ensures placed { OnOk result (AllPlaced declared.now fields.now (length fields.now)) }
    ensures parents { IfOk result (λ tree. parents_in tree ≡ parents_of declared.now) }
    ensures regions { IfOk result (λ tree. (name : List ℕ) → region_in tree name ≡ number_of declared.now name) }
    ensures places { IfOk result (λ tree. (field : List ℕ) → place_in tree field ≡ place_of declared.now fields.now field) }
    ensures fault { IfErr result (IsFault declared.now fields.now) }
{
    let numbers = number_names(alloc, declared)?;
    let parents = find_parents(alloc, declared, &numbers)?;
    let climber = Climber::new(alloc, parents)?;
    check_declared(declared, &numbers, &climber)?;
    let places = place_fields(alloc, declared, &numbers, fields)?;
    let (parents, marks) = climber.into_parts();
    Ok(RegionTree {
        numbers,
        places,
        parents,
        marks,
    })
}
