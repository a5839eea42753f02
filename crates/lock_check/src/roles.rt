ghost use Rattle.std.specs.Prelude.{◌≡◌, ◌+◌, drop, length, map, IfOk};
ghost use Rattle.views.specs.Face.{face};
ghost use Rattle.bound_unit.specs.Aboves.{above_as, aboves_as};
ghost use Rattle.lock_check.specs.Roles as spec;

use crate::needs::{needs_at, params_at};
use crate::owner::is_args;
use bound_tree::{BoundTree, Part};
use bound_unit::{Above as Method, implemented};
use class_faces::ParamFace;
use desk_base::{Items, Name, OutOfMemory, PromiseKey, PromiseName, Text};
use lock_findings::{Above, Role};
use std::alloc::Global;
use views::View;

fn above_of(alloc: Global, view: &View<'_>, method: &Method<'_>) -> Result<Above, OutOfMemory>
    ensures { IfOk result (λ above. above ≡ spec.above_of (face view.now) (above_as method.now)) }
{
    let needs = needs_at(alloc, view, method.interface, &method.member.key)?;
    let interface = method.interface.clone()?;
    Ok(Above { interface, needs })
}

/// What the methods of interfaces that these are require.
fn aboves_of(
    alloc: Global,
    view: &View<'_>,
    methods: &[Method<'_>],
) -> Result<Items<Above>, OutOfMemory>
    ensures { IfOk result (λ aboves. aboves ≡ map (spec.above_of (face view.now)) (aboves_as methods.now)) }
{
    let mut aboves = Items::new(alloc);
    for method in methods {
        aboves.push(above_of(alloc, view, method)?)?;
    }
    Ok(aboves)
}

/// The methods of interfaces that the unit implements, with what they require.
fn aboves(
    alloc: Global,
    view: &View<'_>,
    key: &Text,
    tree: &BoundTree,
) -> Result<Items<Above>, OutOfMemory>
    ensures { IfOk result (λ aboves. aboves ≡ spec.aboves (face view.now) key.now tree.now) }
{
    let methods = implemented(alloc, view, key, tree)?;
    aboves_of(alloc, view, methods.as_slice())
}

fn is_main(params: &[ParamFace]) -> bool
    ensures { result ≡ spec.is_main params.now }
{
    match params {
        [first, ..] => is_args(&first.ty),
        [] => false,
    }
}

/// A field's name in its key.
fn field_word(alloc: Global, class: &Name, key: &Text) -> Result<Name, OutOfMemory>
    ensures { IfOk result (λ name. name ≡ spec.field_word class.now key.now) }
{
    let key = key.as_slice();
    if class.len() < key.len() {
        Name::from_slice(alloc, &key[class.len() + 1..])
    } else {
        Name::from_slice(alloc, b"")
    }
}

fn unique_value(alloc: Global, key: &Text) -> Result<PromiseKey, OutOfMemory>
    ensures { IfOk result (λ promise. promise ≡ spec.unique_value key.now) }
{
    let target = key.clone()?;
    Ok(PromiseKey {
        target,
        name: PromiseName::Unique,
        detail: Text::new(alloc),
    })
}

/// What a field's unit is.
fn field_role(alloc: Global, view: &View<'_>, class: &Name, key: &Text) -> Result<Role, OutOfMemory>
    ensures { IfOk result (λ role. role ≡ spec.field_role (face view.now) class.now key.now) }
{
    let unique = unique_value(alloc, key)?;
    let name = field_word(alloc, class, key)?;
    if view.standing(class, &unique).is_some() && view.field(class, &name).is_some() {
        let class = class.clone()?;
        Ok(Role::UniqueField {
            class,
            name,
            unique,
        })
    } else {
        Ok(Role::Plain)
    }
}

fn method_role(
    alloc: Global,
    view: &View<'_>,
    key: &Text,
    tree: &BoundTree,
) -> Result<Role, OutOfMemory>
    ensures { IfOk result (λ role. role ≡ spec.method_role (face view.now) key.now tree.now) }
{
    if is_main(params_at(view, &tree.class, key)) {
        Ok(Role::Main)
    } else {
        Ok(Role::Method(aboves(alloc, view, key, tree)?))
    }
}

/// What a unit is.
pub(crate) fn role_of(
    alloc: Global,
    view: &View<'_>,
    key: &Text,
    tree: &BoundTree,
) -> Result<Role, OutOfMemory>
    ensures { IfOk result (λ role. role ≡ spec.role_of (face view.now) key.now tree.now) }
{
    match &tree.part {
        Part::Header(_) => Ok(Role::Plain),
        Part::Field(_, _) => field_role(alloc, view, &tree.class, key),
        Part::Sig(_, _) => Ok(Role::Plain),
        Part::Body(_) => method_role(alloc, view, key, tree),
    }
}
