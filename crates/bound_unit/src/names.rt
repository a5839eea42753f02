ghost use Rattle.std.specs.Prelude.{◌≡◌, ◌++◌, ◌∷◌, [], OnOk, flat_map};
ghost use Rattle.std.specs.Option.{option_copied};
ghost use Rattle.views.specs.Face.{face};
ghost use Rattle.bound_unit.specs.Names as spec;

use class_faces::{FaceTy, ParamFace};
use desk_base::{Items, Name, OutOfMemory, PromiseKey, Text};
use promise_grammar::{EffectTarget, PromiseTree};
use promise_scrub::Standing;
use std::alloc::Global;
use views::{UnitPromises, View};

fn put_name(names: &mut Items<Name>, name: &Name) -> Result<(), OutOfMemory>
    ensures { OnOk result (names.new ≡ names.old ++ name.now ∷ []) }
{
    names.push(name.clone()?)?;
    Ok(())
}

/// Puts the name of a type, where it has one.
fn put_type(names: &mut Items<Name>, ty: &FaceTy) -> Result<(), OutOfMemory>
    ensures { OnOk result (names.new ≡ names.old ++ spec.type_names ty.now) }
{
    match ty {
        FaceTy::Named(name) => put_name(names, name),
        FaceTy::Int | FaceTy::Bool | FaceTy::Args => Ok(()),
    }
}

/// Puts the types of parameters.
fn put_params(names: &mut Items<Name>, params: &[ParamFace]) -> Result<(), OutOfMemory>
    ensures { OnOk result (names.new ≡ names.old ++ flat_map spec.param_names params.now) }
{
    for param in params {
        put_type(names, &param.ty)?;
    }
    Ok(())
}

/// Puts the type of a result.
fn put_result(names: &mut Items<Name>, ty: &Option<FaceTy>) -> Result<(), OutOfMemory>
    ensures { OnOk result (names.new ≡ names.old ++ spec.result_names ty.now) }
{
    match ty {
        Some(ty) => put_type(names, ty),
        None => Ok(()),
    }
}

fn is_args(ty: &FaceTy) -> bool
    ensures { result ≡ spec.is_args ty.now }
{
    match ty {
        FaceTy::Args => true,
        FaceTy::Int | FaceTy::Bool | FaceTy::Named(_) => false,
    }
}

fn is_param(params: &[ParamFace], owner: &[u8]) -> bool
    ensures { result ≡ spec.is_param params.now owner.now }
{
    params.iter().any(|param| !is_args(&param.ty) && param.name.as_slice() == owner)
}

/// Puts what stands before a `:`, where it is no parameter.
fn put_owner(
    alloc: Global,
    names: &mut Items<Name>,
    params: &[ParamFace],
    owner: &[u8],
) -> Result<(), OutOfMemory>
    ensures { OnOk result (names.new ≡ names.old ++ spec.owner_names params.now owner.now) }
{
    if is_param(params, owner) {
        return Ok(());
    }
    names.push(Name::from_slice(alloc, owner)?)?;
    Ok(())
}

/// What stands before the first `:` of a detail.
fn lock_owner(detail: &Text) -> &str
    ensures { result.now ≡ spec.lock_owner detail.now }
{
    match detail.as_str().split_once(':') {
        Some((owner, _)) => owner,
        None => detail.as_str(),
    }
}

/// Puts the type that a required lock names.
fn put_lock(
    alloc: Global,
    names: &mut Items<Name>,
    params: &[ParamFace],
    detail: &Text,
) -> Result<(), OutOfMemory>
    ensures { OnOk result (names.new ≡ names.old ++ spec.lock_names params.now (spec.lock_owner detail.now)) }
{
    let owner = lock_owner(detail).as_bytes();
    if owner == b"this".as_slice() {
        return Ok(());
    }
    put_owner(alloc, names, params, owner)
}

fn put_target(
    alloc: Global,
    names: &mut Items<Name>,
    params: &[ParamFace],
    target: &EffectTarget,
) -> Result<(), OutOfMemory>
    ensures { OnOk result (names.new ≡ names.old ++ spec.target_names params.now target.now) }
{
    match target {
        EffectTarget::Bare(_) | EffectTarget::This(_) => Ok(()),
        EffectTarget::Of { owner, region: _ } => {
            put_owner(alloc, names, params, owner.as_slice())
        }
        EffectTarget::Any { class, region: _ } => put_name(names, class),
    }
}

/// Puts the types that targets of effects name.
fn put_targets(
    alloc: Global,
    names: &mut Items<Name>,
    params: &[ParamFace],
    targets: &[EffectTarget],
) -> Result<(), OutOfMemory>
    ensures { OnOk result (names.new ≡ names.old ++ flat_map (spec.target_names params.now) targets.now) }
{
    for target in targets {
        put_target(alloc, names, params, target)?;
    }
    Ok(())
}

/// Puts the types that a promise of the key with the content names, at a member with the parameters.
pub fn put_tree_names(
    alloc: Global,
    params: &[ParamFace],
    key: &PromiseKey,
    tree: &PromiseTree,
    names: &mut Items<Name>,
) -> Result<(), OutOfMemory>
    ensures { OnOk result (names.new ≡ names.old ++ spec.tree_names params.now key.now tree.now) }
{
    match tree {
        PromiseTree::RequiresLock(_) => put_lock(alloc, names, params, &key.detail),
        PromiseTree::RegionEffects(effects) => {
            put_targets(alloc, names, params, effects.reads.as_slice())?;
            put_targets(alloc, names, params, effects.writes.as_slice())?;
            Ok(())
        }
        PromiseTree::Region(_)
        | PromiseTree::InRegion(_)
        | PromiseTree::RegionLock(_)
        | PromiseTree::Unique(_)
        | PromiseTree::Borrowed(_)
        | PromiseTree::Starts
        | PromiseTree::Promise(_, _)
        | PromiseTree::Assume(_, _)
        | PromiseTree::Vouch(_) => Ok(()),
    }
}

/// Puts the types that a promise names, where there is one.
fn put_promise(
    alloc: Global,
    names: &mut Items<Name>,
    params: &[ParamFace],
    promise: Option<&Standing>,
) -> Result<(), OutOfMemory>
    ensures { OnOk result (names.new ≡ names.old ++ spec.standing_names_if params.now (option_copied promise.entry)) }
{
    match promise {
        Some(promise) => put_tree_names(alloc, params, &promise.key, promise.tree.get(), names),
        None => Ok(()),
    }
}

/// Puts the types that promises name.
fn put_standing(
    alloc: Global,
    names: &mut Items<Name>,
    params: &[ParamFace],
    promises: &UnitPromises<'_>,
) -> Result<(), OutOfMemory>
    ensures { OnOk result (names.new ≡ names.old ++ flat_map (spec.standing_names params.now) promises.now) }
{
    for at in 0..promises.len() {
        put_promise(alloc, names, params, promises.get(at))?;
    }
    Ok(())
}

/// Puts the types of the parameters and the result of the member of a class that has the key, where
/// there is one, and those that the promises that stand at that unit name.
pub fn put_member_names(
    alloc: Global,
    view: &View<'_>,
    class: &Name,
    unit: &Text,
    names: &mut Items<Name>,
) -> Result<(), OutOfMemory>
    ensures { OnOk result (names.new ≡ names.old ++ spec.member_names (face view.now class.now) unit.now) }
{
    let promises = view.standing_at(class, unit);
    match view.member(class, unit) {
        Some(member) => {
            put_params(names, member.params.as_slice())?;
            put_result(names, &member.result)?;
            put_standing(alloc, names, member.params.as_slice(), &promises)
        }
        None => put_standing(alloc, names, &[], &promises),
    }
}
