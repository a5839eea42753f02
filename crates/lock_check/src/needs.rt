ghost use Rattle.std.specs.Prelude.{◌≡◌, ◌++◌, filter, map, IfOk, OnOk};
ghost use Rattle.std.specs.Option.{option_copied, option_to_list};
ghost use Rattle.views.specs.Face.{face};
ghost use Rattle.lock_check.specs.Needs as spec;

use crate::locks::lock_holder;
use crate::owner::{Owner, owner_of, split_detail};
use bound_unit::member_key;
use class_faces::ParamFace;
use desk_base::{Items, Name, OutOfMemory, PromiseKey, Text};
use lock_findings::{Holder, LockName, Need};
use promise_grammar::PromiseTree;
use promise_scrub::Standing;
use std::alloc::Global;
use views::{UnitPromises, View};

/// A member of a class: the class, and the parameters that names in its promises mean.
#[derive(Drop)]
pub(crate) struct Site<'a> {
    pub(crate) class: &'a Name,
    pub(crate) params: &'a [ParamFace],
}

fn holder_for(view: &View<'_>, owner: &Owner, lock: &Name) -> Result<Option<Holder>, OutOfMemory>
    ensures { IfOk result (λ holder. holder ≡ spec.holder_for (face view.now) owner.now lock.now) }
{
    if owner.has_name {
        lock_holder(view, &owner.class, lock, owner.is_static)
    } else {
        Ok(None)
    }
}

fn need_for(
    alloc: Global,
    view: &View<'_>,
    key: &PromiseKey,
    owner: Owner,
    lock: &[u8],
) -> Result<Need, OutOfMemory>
    requires { lock.now ≡ spec.lock_word key.now.detail }
    ensures { IfOk result (λ need. need ≡ spec.need_for (face view.now) key.now owner) }
{
    let name = Name::from_slice(alloc, lock)?;
    let holder = holder_for(view, &owner, &name)?;
    let key = key.clone()?;
    Ok(Need {
        key,
        lock: LockName {
            class: owner.class,
            name,
            is_static: owner.is_static,
        },
        base: owner.base,
        holder,
    })
}

/// What a promise at a member requires.
pub(crate) fn need_of(
    alloc: Global,
    view: &View<'_>,
    site: &Site<'_>,
    promise: &Standing,
) -> Result<Need, OutOfMemory>
    ensures { IfOk result (λ need. need ≡ spec.need_of (face view.now) site.now.class.now site.now.params.now promise.now) }
{
    let (owner, lock) = split_detail(&promise.key.detail);
    let found = owner_of(
        alloc,
        site.class,
        site.params,
        promise,
        owner.as_bytes(),
        lock.as_bytes(),
    )?;
    need_for(alloc, view, &promise.key, found, lock.as_bytes())
}

/// Whether the promise is one that requires a lock.
pub(crate) fn asks_lock(promise: &Standing) -> bool
    ensures { result ≡ spec.asks_lock promise.now }
{
    matches!(promise.tree.get(), PromiseTree::RequiresLock(_))
}

/// The parameters of a unit of the class.
pub(crate) fn params_at<'a>(view: &'a View<'_>, class: &Name, unit: &Text) -> &'a [ParamFace]
    ensures { result.now ≡ spec.params_at (face view.now) class.now unit.now }
{
    match view.member(class, unit) {
        Some(member) => member.params.as_slice(),
        None => &[],
    }
}

fn put_need_at(
    alloc: Global,
    view: &View<'_>,
    site: &Site<'_>,
    promise: Option<&Standing>,
    out: &mut Items<Need>,
) -> Result<(), OutOfMemory>
    ensures { OnOk result (out.new ≡ out.old ++ map (spec.need_of (face view.now) site.now.class.now site.now.params.now) (filter spec.asks_lock (option_to_list (option_copied promise.entry)))) }
{
    match promise {
        Some(promise) if asks_lock(promise) => {
            out.push(need_of(alloc, view, site, promise)?)?;
            Ok(())
        }
        Some(_) => Ok(()),
        None => Ok(()),
    }
}

fn needs_among(
    alloc: Global,
    view: &View<'_>,
    site: &Site<'_>,
    promises: &UnitPromises<'_>,
) -> Result<Items<Need>, OutOfMemory>
    ensures { IfOk result (λ needs. needs ≡ map (spec.need_of (face view.now) site.now.class.now site.now.params.now) (filter spec.asks_lock promises.now)) }
{
    let mut needs = Items::new(alloc);
    for at in 0..promises.len() {
        put_need_at(alloc, view, site, promises.get(at), &mut needs)?;
    }
    Ok(needs)
}

/// The locks that a unit of the class requires, in the order of its surface.
pub(crate) fn needs_at(
    alloc: Global,
    view: &View<'_>,
    class: &Name,
    unit: &Text,
) -> Result<Items<Need>, OutOfMemory>
    ensures { IfOk result (λ needs. needs ≡ spec.needs_at (face view.now) class.now unit.now) }
{
    let site = Site {
        class,
        params: params_at(view, class, unit),
    };
    needs_among(alloc, view, &site, &view.standing_at(class, unit))
}

/// The locks that the first member of the name with so many parameters requires.
pub(crate) fn needs(
    alloc: Global,
    view: &View<'_>,
    class: &Name,
    name: &[u8],
    count: usize,
) -> Result<Items<Need>, OutOfMemory>
    ensures { IfOk result (λ needs. needs ≡ spec.needs (face view.now) class.now name.now count) }
{
    let unit = member_key(alloc, class, name, count)?;
    needs_at(alloc, view, class, &unit)
}
