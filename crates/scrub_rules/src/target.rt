ghost use Rattle.std.specs.Prelude.{◌≡◌};
ghost use Rattle.std.specs.Option.{option_copied};
ghost use Rattle.scrub_rules.specs.Code as codes;
ghost use Rattle.scrub_rules.specs.Target as spec;
ghost use Rattle.scrub_rules.specs.Target.{kinds_in};

use class_faces::{FaceTy, ParamFace};
use desk_base::Name;
use promise_grammar::{EffectTarget, EffectsContent, LockItem};
use result_records::FindingCode;
use std::collections::BTreeMap;

/// What a name in a promise of a member is looked up in: the class's own locks, or its own regions,
/// with whether each is static; the class's name; whether the member has a `this`; and its
/// parameters.
#[derive(Clone, Copy)]
pub(crate) struct Lookup<'a> {
    pub(crate) kinds: &'a BTreeMap<Name, bool>,
    pub(crate) class: &'a Name,
    pub(crate) has_this: bool,
    pub(crate) params: &'a [ParamFace],
}

/// The code that counts of two: the first in the order of the tests.
pub fn least(a: Option<FindingCode>, b: Option<FindingCode>) -> Option<FindingCode>
    ensures { result ≡ codes.least a b }
{
    match (a, b) {
        (None, b) => b,
        (Some(a), None) => Some(a),
        (Some(a), Some(b)) => { if a as u8 <= b as u8 { Some(a) } else { Some(b) } }
    }
}

fn bare_code(found: Option<bool>, has_this: bool, missing: FindingCode) -> Option<FindingCode>
    ensures { result ≡ spec.bare_code found has_this missing }
{
    match found {
        None => Some(missing),
        Some(is_static) if is_static || has_this => None,
        Some(_) => Some(FindingCode::BadPlace),
    }
}

fn this_code(found: Option<bool>, has_this: bool, missing: FindingCode) -> Option<FindingCode>
    ensures { result ≡ spec.this_code found has_this missing }
{
    if !has_this {
        return Some(FindingCode::BadPlace);
    }
    match found {
        None => Some(missing),
        Some(true) => Some(FindingCode::BadPlace),
        Some(false) => None,
    }
}

fn own_code(found: Option<bool>, is_instance: bool, missing: FindingCode) -> Option<FindingCode>
    ensures { result ≡ spec.own_code found is_instance missing }
{
    match found {
        None => Some(missing),
        Some(is_static) if is_static == is_instance => Some(FindingCode::BadPlace),
        Some(_) => None,
    }
}

fn param_named<'a>(params: &'a [ParamFace], name: &Name) -> Option<&'a ParamFace>
    ensures { option_copied result ≡ spec.param_named params.now name.now }
{
    params
        .iter()
        .find(|param| param.name.as_slice() == name.as_slice())
}

fn is_type(class: &Name, ty: &FaceTy) -> bool
    ensures { result ≡ spec.is_type class.now ty.now }
{
    match ty {
        FaceTy::Int => false,
        FaceTy::Bool => false,
        FaceTy::Named(name) => name.as_slice() == class.as_slice(),
        FaceTy::Args => false,
    }
}

fn assigned_code(param: &ParamFace) -> Option<FindingCode>
    ensures { result ≡ spec.assigned_code param.now }
{
    if param.effectively_final {
        None
    } else {
        Some(FindingCode::AssignedParameter)
    }
}

fn kind_in(kinds: &BTreeMap<Name, bool>, name: &Name) -> Option<bool>
    ensures { result ≡ kinds_in kinds.now name.now }
{
    kinds.get(name).copied()
}

fn of_code(at: &Lookup<'_>, owner: &Name, name: &Name, missing: FindingCode) -> Option<FindingCode>
    ensures { result ≡ spec.of_code (kinds_in at.now.kinds.now) at.now.class.now owner.now name.now missing (spec.param_named at.now.params.now owner.now) }
{
    match param_named(at.params, owner) {
        Some(param) => {
            let own = if is_type(at.class, &param.ty) {
                own_code(kind_in(at.kinds, name), true, missing)
            } else {
                None
            };
            least(own, assigned_code(param))
        }
        None if owner.as_slice() == at.class.as_slice() => {
            own_code(kind_in(at.kinds, name), false, missing)
        }
        None => None,
    }
}

/// The code of one item of a list of locks.
pub(crate) fn lock_code(at: &Lookup<'_>, item: &LockItem) -> Option<FindingCode>
    ensures { result ≡ spec.lock_code (kinds_in at.now.kinds.now) at.now.class.now at.now.has_this at.now.params.now item.now }
{
    let missing = FindingCode::UnknownLock;
    match item {
        LockItem::Bare(name) => bare_code(kind_in(at.kinds, name), at.has_this, missing),
        LockItem::This(name) => this_code(kind_in(at.kinds, name), at.has_this, missing),
        LockItem::Of { owner, lock } => of_code(at, owner, lock, missing),
    }
}

fn effect_code(at: &Lookup<'_>, target: &EffectTarget) -> Option<FindingCode>
    ensures { result ≡ spec.effect_code (kinds_in at.now.kinds.now) at.now.class.now at.now.has_this at.now.params.now target.now }
{
    let missing = FindingCode::UnknownRegion;
    match target {
        EffectTarget::Bare(name) => bare_code(kind_in(at.kinds, name), at.has_this, missing),
        EffectTarget::This(name) => this_code(kind_in(at.kinds, name), at.has_this, missing),
        EffectTarget::Of { owner, region } => of_code(at, owner, region, missing),
        EffectTarget::Any { class, region } if class.as_slice() == at.class.as_slice() => {
            own_code(kind_in(at.kinds, region), true, missing)
        }
        EffectTarget::Any { .. } => None,
    }
}

fn targets_code(at: &Lookup<'_>, targets: &[EffectTarget]) -> Option<FindingCode>
    ensures { result ≡ spec.targets_code (kinds_in at.now.kinds.now) at.now.class.now at.now.has_this at.now.params.now targets.now }
{
    let mut code = None;
    for target in targets {
        code = least(code, effect_code(at, target));
    }
    code
}

/// The first code of what a member may read and write: the least of all targets.
pub(crate) fn effects_code(at: &Lookup<'_>, effects: &EffectsContent) -> Option<FindingCode>
    ensures { result ≡ spec.effects_code (kinds_in at.now.kinds.now) at.now.class.now at.now.has_this at.now.params.now effects.now }
{
    least(
        targets_code(at, effects.reads.as_slice()),
        targets_code(at, effects.writes.as_slice()),
    )
}

/// The code of an `InRegion` of a field that is static or not: `UnknownRegion` where the class has
/// no such region, `MixedKinds` where it is of the other kind. `regions` has the class's regions,
/// with whether each is static.
pub(crate) fn in_region_code(
    regions: &BTreeMap<Name, bool>,
    region: &Name,
    is_static: bool,
) -> Option<FindingCode>
    ensures { result ≡ spec.in_region_code (kinds_in regions.now region.now) is_static }
{
    match kind_in(regions, region) {
        None => Some(FindingCode::UnknownRegion),
        Some(kind) if kind == is_static => None,
        Some(_) => Some(FindingCode::MixedKinds),
    }
}
