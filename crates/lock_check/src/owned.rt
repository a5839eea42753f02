ghost use Rattle.std.specs.Prelude.{◌≡◌, ◌++◌, IfOk, OnOk};
ghost use Rattle.std.specs.Option.{option_copied, option_to_list};
ghost use Rattle.views.specs.Face.{face};
ghost use Rattle.lock_check.specs.Needs.{need_of};
ghost use Rattle.lock_check.specs.Owned as spec;

use crate::needs::{Site, asks_lock, need_of, params_at};
use bound_tree::Part;
use bound_unit::BoundUnit;
use desk_base::{Items, Name, OutOfMemory, PromiseKey, PromiseName, Text};
use lock_findings::{Own, OwnNeed};
use promise_scrub::Standing;
use result_records::FindingLink;
use sqlite_items::at as item;
use std::alloc::Global;
use views::{UnitPromises, View};

/// The token at which the annotation begins that gives the promise of the number.
fn place_at(places: &[u32], number: usize) -> u32
    ensures { result ≡ spec.place_at places.now number }
{
    match item(places, number) {
        Some(place) => *place,
        None => 1,
    }
}

fn put_own_need(
    alloc: Global,
    view: &View<'_>,
    site: &Site<'_>,
    promise: Option<&Standing>,
    place: u32,
    out: &mut Items<OwnNeed>,
) -> Result<(), OutOfMemory>
    ensures { OnOk result (out.new ≡ out.old ++ spec.own_need_in (need_of (face view.now) site.now.class.now site.now.params.now) place (option_copied promise.entry)) }
{
    match promise {
        Some(promise) if asks_lock(promise) => {
            let need = need_of(alloc, view, site, promise)?;
            out.push(OwnNeed { need, place })?;
            Ok(())
        }
        Some(_) => Ok(()),
        None => Ok(()),
    }
}

fn own_needs_among(
    alloc: Global,
    view: &View<'_>,
    site: &Site<'_>,
    promises: &UnitPromises<'_>,
    places: &[u32],
) -> Result<Items<OwnNeed>, OutOfMemory>
    ensures { IfOk result (λ needs. needs ≡ spec.own_needs_from (need_of (face view.now) site.now.class.now site.now.params.now) places.now 0 promises.now) }
{
    let mut needs = Items::new(alloc);
    for at in 0..promises.len() {
        let place = place_at(places, at);
        put_own_need(alloc, view, site, promises.get(at), place, &mut needs)?;
    }
    Ok(needs)
}

/// The locks that the unit requires, each with the token at which its annotation begins.
fn own_needs(
    alloc: Global,
    view: &View<'_>,
    class: &Name,
    unit: &Text,
    places: &[u32],
) -> Result<Items<OwnNeed>, OutOfMemory>
    ensures { IfOk result (λ needs. needs ≡ spec.own_needs (face view.now) class.now unit.now places.now) }
{
    let site = Site {
        class,
        params: params_at(view, class, unit),
    };
    own_needs_among(alloc, view, &site, &view.standing_at(class, unit), places)
}

fn borrowed_this(alloc: Global, unit: &Text) -> Result<PromiseKey, OutOfMemory>
    ensures { IfOk result (λ key. key ≡ spec.borrowed_this unit.now) }
{
    let target = unit.clone()?;
    let detail = Text::from_text(alloc, "this")?;
    Ok(PromiseKey {
        target,
        name: PromiseName::Borrowed,
        detail,
    })
}

/// The link of a promise of the class: that it stands, else that the view's class assumes it.
fn link_of(
    view: &View<'_>,
    class: &Name,
    promise: PromiseKey,
) -> Result<Option<FindingLink>, OutOfMemory>
    ensures { IfOk result (λ link. link ≡ spec.link_of (face view.now class.now) view.now.class promise) }
{
    if view.standing(class, &promise).is_some() {
        Ok(Some(FindingLink::Promise(promise)))
    } else if view.assumed(class, &promise).is_some() {
        let class = view.class().clone()?;
        Ok(Some(FindingLink::Assumed { class, promise }))
    } else {
        Ok(None)
    }
}

fn is_constructor(part: &Part) -> bool
    ensures { result ≡ spec.is_constructor part.now }
{
    match part {
        Part::Header(_) => false,
        Part::Field(_, _) => false,
        Part::Sig(_, _) => false,
        Part::Body(body) => body.name.as_slice() == b"new".as_slice(),
    }
}

fn is_static_part(part: &Part) -> bool
    ensures { result ≡ spec.is_static_part part.now }
{
    match part {
        Part::Header(_) => false,
        Part::Field(_, _) => false,
        Part::Sig(_, _) => false,
        Part::Body(body) => body.is_static,
    }
}

/// The link of the promise of a constructor that its `this` goes nowhere.
fn confined(
    alloc: Global,
    view: &View<'_>,
    unit: &BoundUnit,
) -> Result<Option<FindingLink>, OutOfMemory>
    ensures { IfOk result (λ link. link ≡ spec.confined view.now unit.now) }
{
    if is_constructor(&unit.tree().part) {
        let promise = borrowed_this(alloc, unit.key())?;
        link_of(view, &unit.tree().class, promise)
    } else {
        Ok(None)
    }
}

/// What the promises of a unit say for its own code.
pub(crate) fn own_of(alloc: Global, view: &View<'_>, unit: &BoundUnit) -> Result<Own, OutOfMemory>
    ensures { IfOk result (λ own. own ≡ spec.own_of view.now unit.now) }
{
    let tree = unit.tree();
    let needs = own_needs(
        alloc,
        view,
        &tree.class,
        unit.key(),
        tree.standing.as_slice(),
    )?;
    let confined = confined(alloc, view, unit)?;
    let key = unit.key().clone()?;
    Ok(Own {
        key,
        is_static: is_static_part(&tree.part),
        needs,
        confined,
    })
}
