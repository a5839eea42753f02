ghost use Rattle.std.specs.Prelude.{◌≡◌, ◌||◌, ◌++◌, not, ℕ, List, length, flat_map, OnOk, IfOk};
ghost use Rattle.std.specs.Option.{option_copied};
ghost use Rattle.std.specs.Str.{bytes_eq};
ghost use Rattle.views.specs.Face.{face};
ghost use Rattle.views.specs.Looks.{interfaces_in, kind_in};
ghost use Rattle.bound_unit.specs.Aboves.{aboves_as, aboves_if_any, has_name};
ghost use Rattle.bound_unit.specs.Implemented as spec;

use crate::key::member_key;
use bound_tree::{Body, BoundTree, Part};
use class_faces::{MemberFace, ParamFace};
use desk_base::{Name, OutOfMemory, Text};
use std::alloc::Global;
use std::collections::BTreeSet;
use views::{FaceKind, View};

/// A method of an interface that a method of a class implements.
#[derive(Clone, Copy)]
pub struct Above<'a> {
    pub interface: &'a Name,
    pub member: &'a MemberFace,
}

fn is_interface(view: &View<'_>, name: &Name) -> bool
    ensures { result ≡ spec.is_interface_kind (kind_in (face view.now name.now)) }
{
    match view.kind(name) {
        Some(FaceKind::Interface) | Some(FaceKind::Runnable) => true,
        Some(FaceKind::Class) | Some(FaceKind::Object) | Some(FaceKind::String) | None => false,
    }
}

fn is_class(view: &View<'_>, name: &Name) -> bool
    ensures { result ≡ spec.is_class_kind (kind_in (face view.now name.now)) }
{
    match view.kind(name) {
        Some(FaceKind::Class) => true,
        Some(FaceKind::Interface)
        | Some(FaceKind::Runnable)
        | Some(FaceKind::Object)
        | Some(FaceKind::String)
        | None => false,
    }
}

#[tactic(auto, using(crate::proofs::Params::counts_differ, crate::proofs::Params::none_left))]
fn same_params(params: &[ParamFace], others: &[ParamFace]) -> bool
    ensures { result ≡ spec.same_params params.now others.now }
{
    if params.len() != others.len() {
        return false;
    }
    for at in 0..params.len() {
        if params[at].ty != others[at].ty {
            return false;
        }
    }
    true
}

/// Whether the two members have equal types of parameters and equal results.
pub fn same_shape(member: &MemberFace, other: &MemberFace) -> bool
    ensures { result ≡ spec.same_shape member.now other.now }
{
    same_params(member.params.as_slice(), other.params.as_slice()) && member.result == other.result
}

/// The method of the interface that the method, which has the name and so many parameters, implements.
fn above_in<'a>(
    alloc: Global,
    view: &'a View<'_>,
    member: &MemberFace,
    name: &Name,
    count: usize,
    interface: &'a Name,
) -> Result<Option<Above<'a>>, OutOfMemory>
    ensures { IfOk result (λ above. aboves_if_any above ≡ spec.above_in (face view.now) member.now name.now count interface.now) }
{
    if !is_interface(view, interface) {
        return Ok(None);
    }
    let key = member_key(alloc, interface, name.as_slice(), count)?;
    match view.member(interface, &key) {
        Some(other) => Ok(above_if(interface, member, other)),
        None => Ok(None),
    }
}

fn above_if<'a>(
    interface: &'a Name,
    member: &MemberFace,
    other: &'a MemberFace,
) -> Option<Above<'a>>
    ensures { aboves_if_any result ≡ spec.above_if interface.now member.now (Some other.now) }
{
    if same_shape(member, other) {
        Some(Above {
            interface,
            member: other,
        })
    } else {
        None
    }
}

fn put_above<'a>(
    alloc: Global,
    view: &'a View<'_>,
    member: &MemberFace,
    name: &Name,
    count: usize,
    interface: &'a Name,
    list: &mut Vec<Above<'a>>,
) -> Result<(), OutOfMemory>
    ensures { OnOk result (aboves_as list.new.items ≡ aboves_as list.old.items ++ spec.above_in (face view.now) member.now name.now count interface.now) }
{
    if let Some(above) = above_in(alloc, view, member, name, count, interface)? {
        list.push(above)?;
    }
    Ok(())
}

/// Meets a name, and answers whether it is new.
fn is_new<'a>(met: &mut BTreeSet<&'a [u8]>, name: &'a Name) -> Result<bool, OutOfMemory>
    ensures new { IfOk result (λ new. new ≡ not (has_name met.old name.now)) }
    ensures kept { OnOk result ((q : List ℕ) → has_name met.new q ≡ (bytes_eq q name.now || has_name met.old q)) }
{
    Ok(met.insert(name.as_slice())?)
}

/// The methods of the interfaces of a class that its method, which has the name and so many parameters,
/// implements.
fn all_above<'a>(
    alloc: Global,
    view: &'a View<'_>,
    class: &Name,
    member: &MemberFace,
    name: &Name,
    count: usize,
) -> Result<Vec<Above<'a>>, OutOfMemory>
    ensures { IfOk result (λ list. aboves_as list.items ≡ flat_map (spec.above_in (face view.now) member.now name.now count) (spec.each_once (interfaces_in (face view.now class.now)))) }
{
    let mut met: BTreeSet<&[u8]> = BTreeSet::new(alloc);
    let mut list = Vec::new(alloc);
    for interface in view.interfaces(class) {
        if is_new(&mut met, interface)? {
            put_above(alloc, view, member, name, count, interface, &mut list)?;
        }
    }
    Ok(list)
}

fn above_member<'a>(
    alloc: Global,
    view: &'a View<'_>,
    class: &Name,
    name: &Name,
    count: usize,
    member: Option<&MemberFace>,
) -> Result<Vec<Above<'a>>, OutOfMemory>
    ensures { IfOk result (λ list. aboves_as list.items ≡ spec.above_member (face view.now) class.now name.now count (option_copied member.entry)) }
{
    match member {
        Some(member) => {
            if !member.is_static && is_class(view, class) {
                return all_above(alloc, view, class, member, name, count);
            }
            Ok(Vec::new(alloc))
        }
        None => Ok(Vec::new(alloc)),
    }
}

fn above_unit<'a>(
    alloc: Global,
    view: &'a View<'_>,
    class: &Name,
    key: &Text,
    body: &Body,
) -> Result<Vec<Above<'a>>, OutOfMemory>
    ensures { IfOk result (λ list. aboves_as list.items ≡ spec.above_unit (face view.now) class.now key.now body.now.name (length body.now.params)) }
{
    let count = body.params.len();
    let first = member_key(alloc, class, body.name.as_slice(), count)?;
    if *key != first {
        return Ok(Vec::new(alloc));
    }
    let member = view.member(class, key);
    above_member(alloc, view, class, &body.name, count, member)
}

/// The methods of interfaces that the unit of a key implements: those with its name and equal types of
/// parameters and result, where it is the first such method of a class and isn't static, in the
/// written order of the interfaces. Runnable counts as an interface.
pub fn implemented<'a>(
    alloc: Global,
    view: &'a View<'_>,
    key: &Text,
    tree: &BoundTree,
) -> Result<Vec<Above<'a>>, OutOfMemory>
    ensures { IfOk result (λ list. aboves_as list.items ≡ spec.implemented (face view.now) key.now tree.now) }
{
    match &tree.part {
        Part::Body(body) => above_unit(alloc, view, &tree.class, key, body),
        Part::Header(_) | Part::Field(_, _) | Part::Sig(_, _) => Ok(Vec::new(alloc)),
    }
}
