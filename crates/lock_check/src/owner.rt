ghost use Rattle.std.specs.Prelude.{◌≡◌, ◌==◌, IfOk};
ghost use Rattle.std.specs.List.{after_first, before_first, list_any};
ghost use Rattle.promise_grammar.specs.declared.tree.PromiseTree.{out-PromiseTree};
ghost use Rattle.bound_unit.specs.Names.{is_args};
ghost use Rattle.lock_check.specs.Needs as spec;

use class_faces::{FaceTy, ParamFace};
use desk_base::{Name, OutOfMemory, Text};
use lock_findings::Base;
use promise_grammar::{LockItem, PromiseTree};
use promise_scrub::Standing;
use std::alloc::Global;

/// Whose lock is required: of which type, whether that is a named one, for whom, and whether the lock
/// is static.
#[derive(Drop)]
pub(crate) struct Owner {
    pub(crate) class: Name,
    pub(crate) has_name: bool,
    pub(crate) base: Base,
    pub(crate) is_static: bool,
}

/// The owner and the lock of a detail `owner:lock`.
pub(crate) fn split_detail(detail: &Text) -> (&str, &str)
    ensures owner { result.0.now ≡ before_first (λ b. b == 58) detail.now }
    ensures lock { result.1.now ≡ after_first (λ b. b == 58) detail.now }
{
    detail
        .as_str()
        .split_once(':')
        .unwrap_or((detail.as_str(), ""))
}

fn type_word(alloc: Global, ty: &FaceTy) -> Result<Name, OutOfMemory>
    ensures { IfOk result (λ name. name ≡ spec.type_word ty.now) }
{
    match ty {
        FaceTy::Int => Name::from_slice(alloc, b"int"),
        FaceTy::Bool => Name::from_slice(alloc, b"boolean"),
        FaceTy::Named(class) => Ok(class.clone()?),
        FaceTy::Args => Name::from_slice(alloc, b""),
    }
}

fn is_type_name(ty: &FaceTy) -> bool
    ensures { result ≡ spec.is_type_name ty.now }
{
    matches!(ty, FaceTy::Named(_))
}

fn of_class(alloc: Global, class: &[u8]) -> Result<Owner, OutOfMemory>
    ensures { IfOk result (λ owner. owner ≡ spec.of_class class.now) }
{
    Ok(Owner {
        class: Name::from_slice(alloc, class)?,
        has_name: true,
        base: Base::Nobody,
        is_static: true,
    })
}

fn of_this(class: &Name) -> Result<Owner, OutOfMemory>
    ensures { IfOk result (λ owner. owner ≡ spec.of_this class.now) }
{
    Ok(Owner {
        class: class.clone()?,
        has_name: true,
        base: Base::This,
        is_static: false,
    })
}

fn of_param(alloc: Global, at: usize, param: &ParamFace) -> Result<Owner, OutOfMemory>
    ensures { IfOk result (λ owner. owner ≡ spec.of_param at param.now) }
{
    let number = u32::try_from(at).map_err(|_| OutOfMemory)?;
    Ok(Owner {
        class: type_word(alloc, &param.ty)?,
        has_name: is_type_name(&param.ty),
        base: Base::Param(number),
        is_static: false,
    })
}

/// Whether the type is that of the parameter of a main.
pub(crate) fn is_args(ty: &FaceTy) -> bool
    ensures { result ≡ is_args ty.now }
{
    matches!(ty, FaceTy::Args)
}

fn is_named(name: &[u8], param: &ParamFace) -> bool
    ensures { result ≡ spec.is_named name.now param.now }
{
    !is_args(&param.ty) && param.name.as_slice() == name
}

/// What a name stands for where it isn't `this`: the first of the parameters that has it, else a class.
fn owner_in(alloc: Global, params: &[ParamFace], name: &[u8]) -> Result<Owner, OutOfMemory>
    ensures { IfOk result (λ owner. owner ≡ spec.owner_from 0 params.now name.now) }
{
    for (number, param) in params.iter().enumerate() {
        if is_named(name, param) {
            return of_param(alloc, number, param);
        }
    }
    of_class(alloc, name)
}

fn is_bare_item(name: &[u8], item: &LockItem) -> bool
    ensures { result ≡ spec.is_bare_item name.now item.now }
{
    match item {
        LockItem::Bare(lock) => lock.as_slice() == name,
        LockItem::This(_) => false,
        LockItem::Of { .. } => false,
    }
}

fn any_bare(name: &[u8], items: &[LockItem]) -> bool
    ensures { result ≡ list_any (spec.is_bare_item name.now) items.now }
{
    items.iter().any(|item| is_bare_item(name, item))
}

/// Whether the annotation that gives the promise has the lock bare.
fn has_bare(name: &[u8], promise: &Standing) -> bool
    ensures { result ≡ spec.has_bare name.now (out-PromiseTree promise.now.tree) }
{
    if let PromiseTree::RequiresLock(items) = promise.tree.get() {
        any_bare(name, items.as_slice())
    } else {
        false
    }
}

/// Whose lock a promise at a member of the class with these parameters requires.
pub(crate) fn owner_of(
    alloc: Global,
    class: &Name,
    params: &[ParamFace],
    promise: &Standing,
    owner: &[u8],
    lock: &[u8],
) -> Result<Owner, OutOfMemory>
    ensures { IfOk result (λ found. found ≡ spec.owner_of class.now params.now (spec.has_bare lock.now (out-PromiseTree promise.now.tree)) owner.now) }
{
    if owner == b"this".as_slice() {
        of_this(class)
    } else if owner == class.as_slice() && has_bare(lock, promise) {
        of_class(alloc, owner)
    } else {
        owner_in(alloc, params, owner)
    }
}
