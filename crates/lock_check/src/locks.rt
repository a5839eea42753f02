ghost use Rattle.std.specs.Prelude.{◌≡◌, ◌++◌, flat_map, IfOk, OnOk};
ghost use Rattle.std.specs.List.{slice_get};
ghost use Rattle.std.specs.Option.{option_copied, option_to_list};
ghost use Rattle.views.specs.Face.{face};
ghost use Rattle.lock_check.specs.Locks as spec;

use crate::under::field_is_under;
use class_faces::text_of;
use desk_base::{Items, Name, OutOfMemory, PromiseKey};
use lock_findings::{Guard, Holder, LockName};
use promise_grammar::{LockHolder, RegionLockContent};
use promise_scrub::Standing;
use std::alloc::Global;
use views::{UnitPromises, View, lock_content};

fn field_holder(is_static: bool, field: &Name) -> Result<Holder, OutOfMemory>
    ensures { IfOk result (λ holder. holder ≡ spec.field_holder is_static field.now) }
{
    let field = field.clone()?;
    if is_static {
        Ok(Holder::Static(field))
    } else {
        Ok(Holder::Field(field))
    }
}

/// The holder of a lock of the class.
fn holder_of(view: &View<'_>, class: &Name, holder: &LockHolder) -> Result<Holder, OutOfMemory>
    ensures { IfOk result (λ found. found ≡ spec.holder_of (face view.now class.now) holder.now) }
{
    match holder {
        LockHolder::This => Ok(Holder::This),
        LockHolder::Class => Ok(Holder::Class),
        LockHolder::Field(field) => field_holder(view.lock_is_static(class, holder), field),
        LockHolder::ThisField(field) => field_holder(view.lock_is_static(class, holder), field),
    }
}

fn holder_if(
    view: &View<'_>,
    class: &Name,
    is_static: bool,
    content: Option<&RegionLockContent>,
) -> Result<Option<Holder>, OutOfMemory>
    ensures { IfOk result (λ holder. holder ≡ spec.holder_if (face view.now class.now) is_static (option_copied content.entry)) }
{
    match content {
        Some(content) if view.lock_is_static(class, &content.holder) == is_static => {
            Ok(Some(holder_of(view, class, &content.holder)?))
        }
        Some(_) => Ok(None),
        None => Ok(None),
    }
}

/// The holder of the class's lock of the name, where it has one and that is static or not, as asked.
pub(crate) fn lock_holder(
    view: &View<'_>,
    class: &Name,
    name: &Name,
    is_static: bool,
) -> Result<Option<Holder>, OutOfMemory>
    ensures { IfOk result (λ holder. holder ≡ spec.lock_holder (face view.now class.now) name.now is_static) }
{
    match view.lock(class, name) {
        Some(promise) => holder_if(view, class, is_static, lock_content(promise)),
        None => Ok(None),
    }
}

fn guard_of(
    view: &View<'_>,
    class: &Name,
    key: &PromiseKey,
    content: &RegionLockContent,
) -> Result<Guard, OutOfMemory>
    ensures { IfOk result (λ guard. guard ≡ spec.guard_of (face view.now class.now) class.now key.now content.now) }
{
    let is_static = view.lock_is_static(class, &content.holder);
    let holder = holder_of(view, class, &content.holder)?;
    let key = key.clone()?;
    Ok(Guard {
        key,
        lock: LockName {
            class: class.clone()?,
            name: content.name.clone()?,
            is_static,
        },
        holder,
    })
}

/// Puts the lock that the promise gives, where the field is in its region.
fn put_guard(
    view: &View<'_>,
    class: &Name,
    field: &Name,
    promise: &Standing,
    out: &mut Items<Guard>,
) -> Result<(), OutOfMemory>
    ensures { OnOk result (out.new ≡ out.old ++ spec.guard_by (face view.now class.now) class.now field.now promise.now) }
{
    match lock_content(promise) {
        Some(content) if field_is_under(view, class, field, &content.region) => {
            out.push(guard_of(view, class, &promise.key, content)?)?;
            Ok(())
        }
        Some(_) => Ok(()),
        None => Ok(()),
    }
}

/// The same of the promise at a place of a list.
fn put_guard_at(
    view: &View<'_>,
    class: &Name,
    field: &Name,
    promise: Option<&Standing>,
    out: &mut Items<Guard>,
) -> Result<(), OutOfMemory>
    ensures { OnOk result (out.new ≡ out.old ++ flat_map (spec.guard_by (face view.now class.now) class.now field.now) (option_to_list (option_copied promise.entry))) }
{
    match promise {
        Some(promise) => put_guard(view, class, field, promise, out),
        None => Ok(()),
    }
}

fn guards_among(
    alloc: Global,
    view: &View<'_>,
    class: &Name,
    field: &Name,
    promises: &UnitPromises<'_>,
) -> Result<Items<Guard>, OutOfMemory>
    ensures { IfOk result (λ guards. guards ≡ flat_map (spec.guard_by (face view.now class.now) class.now field.now) promises.now) }
{
    let mut guards = Items::new(alloc);
    for at in 0..promises.len() {
        put_guard_at(view, class, field, promises.get(at), &mut guards)?;
    }
    Ok(guards)
}

/// The locks in whose region the field is, in written order.
pub(crate) fn guards(
    alloc: Global,
    view: &View<'_>,
    class: &Name,
    field: &Name,
) -> Result<Items<Guard>, OutOfMemory>
    ensures { IfOk result (λ guards. guards ≡ spec.guards (face view.now class.now) class.now field.now) }
{
    let unit = text_of(alloc, class.as_slice())?;
    guards_among(alloc, view, class, field, &view.standing_at(class, &unit))
}
