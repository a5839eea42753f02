ghost use Rattle.std.specs.Prelude.{◌≡◌, ◌≤◌, ◌+◌, ◌++◌, drop, length, map, replicate, IfOk, OnOk, Some};
ghost use Rattle.std.specs.Option.{option_copied, option_map};
ghost use Rattle.promise_grammar.specs.declared.tree.PromiseTree.{out-PromiseTree};
ghost use Rattle.scrub_rules.specs.Offers.{param_name as name_of_param};
ghost use Rattle.class_faces.specs.Keys.{text_of as as_text};
ghost use Rattle.unit_rules.specs.Given as spec;

use class_faces::text_of;
use desk_base::{Items, OutOfMemory, Text};
use java_tree::{ClassTree, MemberTree};
use promise_grammar::{PromiseTree, Shared};
use promise_marks::Mark;
use promise_scrub::Standing;
use scrub_rules::{Site, first_code, header_site, param_name, site_of};
use std::alloc::Global;
use views::UnitPromises;

/// An annotation: its content, where its place and form allow it; the name of the parameter that it
/// stands at, where it stands at one; and the number of its `@`.
#[derive(Drop)]
pub(crate) struct Written<'m> {
    pub(crate) content: Option<&'m PromiseTree>,
    pub(crate) param: Option<Text>,
    pub(crate) at: u32,
}

fn content_of(tree: &Option<Shared<PromiseTree>>) -> Option<&PromiseTree>
    ensures { option_copied result ≡ tree.now }
{
    match tree {
        Some(tree) => Some(tree.get()),
        None => None,
    }
}

/// The content of an annotation, where its place and form allow it.
fn allowed(site: Site, tree: &Option<Shared<PromiseTree>>) -> Option<&PromiseTree>
    ensures { option_copied result ≡ spec.allowed site tree.now }
{
    match first_code(site, tree) {
        None => content_of(tree),
        Some(_) => None,
    }
}

fn param_text(
    alloc: Global,
    member: &MemberTree,
    param: Option<usize>,
) -> Result<Option<Text>, OutOfMemory>
    ensures { IfOk result (λ text. text ≡ option_map (λ i. as_text (name_of_param member.now (Some i))) param) }
{
    match param {
        Some(i) => Ok(Some(text_of(alloc, param_name(member, Some(i)))?)),
        None => Ok(None),
    }
}

fn member_annotation<'m>(
    alloc: Global,
    member: &MemberTree,
    mark: &'m Mark,
    at: u32,
) -> Result<Written<'m>, OutOfMemory>
    ensures { IfOk result (λ made. spec.written_as made ≡ spec.member_annotation member.now mark.now at) }
{
    let param = param_text(alloc, member, mark.param)?;
    Ok(Written {
        content: allowed(site_of(member, mark.param), &mark.tree),
        param,
        at,
    })
}

fn header_annotation<'m>(class: &ClassTree, mark: &'m Mark, at: u32) -> Written<'m>
    ensures { spec.written_as result ≡ spec.header_annotation class.now mark.now at }
{
    Written {
        content: allowed(header_site(class.kind), &mark.tree),
        param: None,
        at,
    }
}

/// The annotations of a header, each with its place.
pub(crate) fn header_annotations<'m>(
    alloc: Global,
    class: &ClassTree,
    marks: &'m [Mark],
    places: &[u32],
) -> Result<Items<Written<'m>>, OutOfMemory>
    ensures { IfOk result (λ list. spec.all_written list ≡ spec.each_at (spec.header_annotation class.now) marks.now places.now) }
{
    let mut list = Items::new(alloc);
    for (i, mark) in marks.iter().enumerate() {
        if i >= places.len() {
            return Ok(list);
        }
        list.push(header_annotation(class, mark, places[i]))?;
    }
    Ok(list)
}

/// The annotations of a member, each with its place.
fn member_annotations<'m>(
    alloc: Global,
    member: &MemberTree,
    marks: &'m [Mark],
    places: &[u32],
) -> Result<Items<Written<'m>>, OutOfMemory>
    ensures { IfOk result (λ list. spec.all_written list ≡ spec.each_at (spec.member_annotation member.now) marks.now places.now) }
{
    let mut list = Items::new(alloc);
    for (i, mark) in marks.iter().enumerate() {
        if i >= places.len() {
            return Ok(list);
        }
        list.push(member_annotation(alloc, member, mark, places[i])?)?;
    }
    Ok(list)
}

fn promise_count(tree: &PromiseTree) -> usize
    ensures { result ≡ spec.promise_count (out-PromiseTree tree.now) }
{
    match tree {
        PromiseTree::RequiresLock(items) => items.len(),
        PromiseTree::Region(_) => 1,
        PromiseTree::InRegion(_) => 1,
        PromiseTree::RegionLock(_) => 1,
        PromiseTree::Unique(_) => 1,
        PromiseTree::Borrowed(_) => 1,
        PromiseTree::RegionEffects(_) => 1,
        PromiseTree::Starts => 1,
        PromiseTree::Promise(_, _) => 0,
        PromiseTree::Assume(_, _) => 0,
        PromiseTree::Vouch(_) => 0,
    }
}

fn is_at(param: &Option<Text>, promise: &Standing) -> bool
    ensures { result ≡ spec.is_at param.now promise.now }
{
    match param {
        Some(param) => promise.key.detail == *param,
        None => true,
    }
}

fn has_content(tree: &PromiseTree, param: &Option<Text>, promise: &Standing) -> bool
    ensures { result ≡ spec.has_content tree.now param.now promise.now }
{
    promise.tree.get() == tree && is_at(param, promise)
}

fn has_content_at(
    tree: &PromiseTree,
    param: &Option<Text>,
    promises: &UnitPromises<'_>,
    at: usize,
) -> bool
    ensures { result ≡ spec.has_content_if_any tree.now param.now promises.now at }
{
    match promises.get(at) {
        Some(promise) => has_content(tree, param, promise),
        None => false,
    }
}

/// Whether the promises from a place on begin with as many as the content has, all with it.
fn gives_next(
    tree: &PromiseTree,
    param: &Option<Text>,
    promises: &UnitPromises<'_>,
    from: usize,
) -> bool
    requires { from ≤ length promises.now }
    ensures { result ≡ spec.gives_next tree.now param.now (drop from promises.now) }
{
    let count = promise_count(tree);
    if promises.len() - from < count {
        return false;
    }
    for k in 0..count {
        if !has_content_at(tree, param, promises, from + k) {
            return false;
        }
    }
    true
}

/// How many of the promises from a place on an annotation gives.
fn given_count(annotation: &Written<'_>, promises: &UnitPromises<'_>, from: usize) -> usize
    requires { from ≤ length promises.now }
    ensures value { result ≡ spec.given_count (spec.written_as annotation.now) (drop from promises.now) }
    ensures within { from + result ≤ length promises.now }
{
    match annotation.content {
        Some(tree) => {
            if gives_next(tree, &annotation.param, promises, from) {
                promise_count(tree)
            } else {
                0
            }
        }
        None => 0,
    }
}

fn put_copies(out: &mut Items<u32>, at: u32, count: usize) -> Result<(), OutOfMemory>
    ensures { OnOk result (out.new ≡ out.old ++ replicate count at) }
{
    let mut put = 0;
    while put < count {
        out.push(at)?;
        put += 1;
    }
    Ok(())
}

/// For each promise of a unit the place of the annotation that gives it, 1 where it was spread.
pub(crate) fn begun(
    alloc: Global,
    annotations: &[Written<'_>],
    promises: &UnitPromises<'_>,
) -> Result<Items<u32>, OutOfMemory>
    ensures { IfOk result (λ places. places ≡ spec.begun (spec.all_written annotations.now) promises.now) }
{
    let len = promises.len();
    let mut out = Items::new(alloc);
    let mut from = 0;
    for annotation in annotations {
        let count = given_count(annotation, promises, from);
        put_copies(&mut out, annotation.at, count)?;
        from += count;
    }
    put_copies(&mut out, 1, len - from)?;
    Ok(out)
}

/// The same of a member, by its annotations and their places.
pub fn member_begun(
    alloc: Global,
    member: &MemberTree,
    marks: &[Mark],
    places: &[u32],
    promises: &UnitPromises<'_>,
) -> Result<Items<u32>, OutOfMemory>
    ensures { IfOk result (λ begun. begun ≡ spec.begun (spec.each_at (spec.member_annotation member.now) marks.now places.now) promises.now) }
{
    let annotations = member_annotations(alloc, member, marks, places)?;
    begun(alloc, annotations.as_slice(), promises)
}
