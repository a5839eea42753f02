ghost use Rattle.std.specs.Prelude.{◌≡◌, ◌++◌, fold, map, IfOk, OnOk};
ghost use Rattle.std.specs.List.{flat_map};
ghost use Rattle.scrub_rules.specs.Facts.{facts_of};
ghost use Rattle.scrub_rules.specs.Offers.{flat};
ghost use Rattle.scrub_rules.specs.Place.{first_code};
ghost use Rattle.promise_grammar.specs.declared.tree.PromiseTree.{out-PromiseTree};
ghost use Rattle.promise_scrub.specs.Members as spec;
ghost use Rattle.promise_scrub.specs.Steps.{kept_of, put_annotation as put_one};
ghost use Rattle.promise_scrub.specs.Verdicts.{judged};

use crate::judge::{Place, put_annotation, put_tree};
use crate::member::{Scoped, copied_scope};
use crate::unit::Unit;
use desk_base::{Items, OutOfMemory, PromiseName, Text};
use java_tree::MemberTree;
use promise_grammar::{PromiseTree, ScopeContent, Shared};
use promise_marks::Mark;
use scrub_rules::{Context, Site, copied, first_code, param_name, place_code, selects, site_of};
use std::alloc::Global;

fn put_mark(
    alloc: Global,
    at: &Context<'_>,
    key: &Text,
    member: &MemberTree,
    mark: &Mark,
    unit: &mut Unit,
) -> Result<(), OutOfMemory>
    ensures { OnOk result (unit.new ≡ put_one key.now unit.old (spec.written (facts_of at.now) member.now mark.now)) }
{
    let site = site_of(member, mark.param);
    let place = Place {
        key,
        spread: false,
        site,
        param: param_name(member, mark.param),
    };
    let code = first_code(site, &mark.tree);
    put_annotation(alloc, at, &place, mark.kind.name(), code, &mark.tree, unit)
}

fn tree_name(tree: &PromiseTree) -> PromiseName
    ensures { result ≡ spec.tree_name (out-PromiseTree tree.now) }
{
    match tree {
        PromiseTree::Region(_) => PromiseName::Region,
        PromiseTree::InRegion(_) => PromiseName::InRegion,
        PromiseTree::RegionLock(_) => PromiseName::RegionLock,
        PromiseTree::RequiresLock(_) => PromiseName::RequiresLock,
        PromiseTree::Unique(_) => PromiseName::Unique,
        PromiseTree::Borrowed(_) => PromiseName::Borrowed,
        PromiseTree::RegionEffects(_) => PromiseName::RegionEffects,
        PromiseTree::Starts => PromiseName::Starts,
        PromiseTree::Promise(_, _) => PromiseName::Promise,
        PromiseTree::Assume(_, _) => PromiseName::Assume,
        PromiseTree::Vouch(_) => PromiseName::Vouch,
    }
}

fn put_spread(
    alloc: Global,
    at: &Context<'_>,
    key: &Text,
    member: &MemberTree,
    scoped: &Scoped,
    unit: &mut Unit,
) -> Result<(), OutOfMemory>
    ensures { OnOk result (unit.new ≡ fold (put_one key.now) unit.old (spec.spread_to (facts_of at.now) member.now scoped.now)) }
{
    if !selects(&scoped.scope, member) {
        return Ok(());
    }
    let place = Place {
        key,
        spread: true,
        site: site_of(member, None),
        param: &[],
    };
    let name = tree_name(scoped.inner.get());
    match place_code(place.site, scoped.inner.get()) {
        Some(code) => unit.put_aside(alloc, key, name, code),
        None => put_tree(alloc, at, &place, name, &scoped.inner, unit),
    }
}

fn put_marks(
    alloc: Global,
    at: &Context<'_>,
    key: &Text,
    member: &MemberTree,
    marks: &[Mark],
    unit: &mut Unit,
) -> Result<(), OutOfMemory>
    ensures { OnOk result (unit.new ≡ fold (put_one key.now) unit.old (map (spec.written (facts_of at.now) member.now) marks.now)) }
{
    for mark in marks {
        put_mark(alloc, at, key, member, mark, unit)?;
    }
    Ok(())
}

fn put_scoped(
    alloc: Global,
    at: &Context<'_>,
    key: &Text,
    member: &MemberTree,
    scoped: &[Scoped],
    unit: &mut Unit,
) -> Result<(), OutOfMemory>
    ensures { OnOk result (unit.new ≡ fold (put_one key.now) unit.old (flat_map (spec.spread_to (facts_of at.now) member.now) scoped.now)) }
{
    for promise in scoped {
        put_spread(alloc, at, key, member, promise, unit)?;
    }
    Ok(())
}

/// The promises of a member, by its own annotations in written order and then by the scoped promises
/// of its class that are for it. A scoped promise that the member has itself is dropped.
pub(crate) fn promises_of(
    alloc: Global,
    at: &Context<'_>,
    key: &Text,
    member: &MemberTree,
    marks: &[Mark],
    scoped: &[Scoped],
) -> Result<Unit, OutOfMemory>
    ensures { IfOk result (λ unit. unit ≡ kept_of key.now (judged (spec.member_annotations (facts_of at.now) member.now marks.now scoped.now))) }
{
    let mut unit = Unit::new(alloc);
    put_marks(alloc, at, key, member, marks, &mut unit)?;
    put_scoped(alloc, at, key, member, scoped, &mut unit)?;
    Ok(unit)
}

// Puts what the promise in an annotation spreads.
fn put_inner(
    alloc: Global,
    scoped: &mut Items<Scoped>,
    inner: &PromiseTree,
    scope: &ScopeContent,
) -> Result<(), OutOfMemory>
    ensures { OnOk result (scoped.new ≡ scoped.old ++ spec.scoped_with scope.now (flat inner.now)) }
{
    match copied(alloc, inner)? {
        None => Ok(()),
        Some(inner) => {
            let inner = Shared::new(alloc, inner)?;
            let scope = copied_scope(scope)?;
            scoped.push(Scoped { inner, scope })?;
            Ok(())
        }
    }
}

fn put_scope(
    alloc: Global,
    scoped: &mut Items<Scoped>,
    tree: &PromiseTree,
) -> Result<(), OutOfMemory>
    ensures { OnOk result (scoped.new ≡ scoped.old ++ spec.scoped_in (out-PromiseTree tree.now)) }
{
    match tree {
        PromiseTree::Promise(inner, scope) => put_inner(alloc, scoped, inner.get(), scope),
        _ => Ok(()),
    }
}

fn put_header(
    alloc: Global,
    scoped: &mut Items<Scoped>,
    site: Site,
    mark: &Mark,
) -> Result<(), OutOfMemory>
    ensures { OnOk result (scoped.new ≡ scoped.old ++ spec.scoped_by (first_code site mark.now.tree) mark.now.tree) }
{
    if first_code(site, &mark.tree).is_some() {
        return Ok(());
    }
    match &mark.tree {
        None => Ok(()),
        Some(tree) => put_scope(alloc, scoped, tree.get()),
    }
}

/// The scoped promises of a header that stand, in written order.
pub(crate) fn scoped_of(
    alloc: Global,
    site: Site,
    marks: &[Mark],
) -> Result<Items<Scoped>, OutOfMemory>
    ensures { IfOk result (λ scoped. scoped ≡ spec.scoped_of site marks.now) }
{
    let mut scoped = Items::new(alloc);
    for mark in marks {
        put_header(alloc, &mut scoped, site, mark)?;
    }
    Ok(scoped)
}
