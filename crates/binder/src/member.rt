ghost use Rattle.std.specs.Prelude.{◌≡◌, ◌++◌, IfOk, OnOk};
ghost use Rattle.tree_places.specs.Numbers.{number_of};
ghost use Rattle.views.specs.Face.{face};
ghost use Rattle.class_faces.specs.Keys.{key_with, key_name as name_in_key, key_count as count_in_key};
ghost use Rattle.binder.specs.Members as spec;
ghost use Rattle.binder.specs.Trees.{tree_as};

use crate::part::bind_part;
use bound_tree::BoundTree;
use class_faces::member_key;
use desk_base::{Items, Name, OutOfMemory, Span, Text};
use expression_binding::Places;
use java_tree::MemberTree;
use name_rules::{Note, put_finding_if};
use promise_marks::Mark;
use result_records::FindingCode;
use std::alloc::Global;
use unit_rules::{member_begins, member_begun};
use views::View;

fn key_name(member: &MemberTree) -> &[u8]
    ensures { result.now ≡ name_in_key member.now }
{
    match member {
        MemberTree::Field(field) => field.name.text.as_slice(),
        MemberTree::Method(method) => method.name.text.as_slice(),
        MemberTree::Sig(sig) => sig.name.text.as_slice(),
        MemberTree::Ctor(_) => b"new",
        MemberTree::Main(_) => b"main",
    }
}

fn key_count(member: &MemberTree) -> Option<usize>
    ensures { result ≡ count_in_key member.now }
{
    match member {
        MemberTree::Field(_) => None,
        MemberTree::Method(method) => Some(method.params.len()),
        MemberTree::Sig(sig) => Some(sig.params.len()),
        MemberTree::Ctor(ctor) => Some(ctor.params.len()),
        MemberTree::Main(_) => Some(1),
    }
}

/// The key that the first member of its name has.
fn first_key(alloc: Global, class: &Name, member: &MemberTree) -> Result<Text, OutOfMemory>
    ensures { IfOk result (λ key. key ≡ key_with class.now member.now 1) }
{
    member_key(
        alloc,
        class.as_slice(),
        key_name(member),
        key_count(member),
        1,
    )
}

fn name_place(member: &MemberTree) -> Span
    ensures { result ≡ spec.name_place member.now }
{
    match member {
        MemberTree::Field(field) => field.name.span,
        MemberTree::Method(method) => method.name.span,
        MemberTree::Sig(sig) => sig.name.span,
        MemberTree::Ctor(ctor) => ctor.name.span,
        MemberTree::Main(main) => main.name.span,
    }
}

/// Puts the finding of a member whose name an earlier one has.
fn put_repeated(
    alloc: Global,
    places: &Places<'_>,
    class: &Name,
    member: &MemberTree,
    key: &Text,
    notes: &mut Items<Note>,
) -> Result<(), OutOfMemory>
    ensures { OnOk result (notes.new ≡ notes.old ++ spec.repeated_notes (number_of places.now) class.now member.now key.now) }
{
    let first = first_key(alloc, class, member)?;
    let at = places.place(name_place(member));
    put_finding_if(notes, *key != first, FindingCode::RepeatedMember, at)
}

/// A member of a class, by its annotations, bound. What is found and consulted is put behind the notes.
pub(crate) fn bind_member(
    alloc: Global,
    view: &View<'_>,
    places: &Places<'_>,
    class: &Name,
    member: &MemberTree,
    key: &Text,
    marks: &[Mark],
    notes: &mut Items<Note>,
) -> Result<BoundTree, OutOfMemory>
    ensures tree { IfOk result (λ tree. tree_as tree ≡ spec.member_tree (face view.now) (number_of places.now) class.now member.now key.now marks.now) }
    ensures notes { OnOk result (notes.new ≡ notes.old ++ spec.member_notes (face view.now) (number_of places.now) class.now member.now key.now) }
{
    let name = class.clone()?;
    let annotations = member_begins(alloc, places, member)?;
    let promises = view.standing_at(class, key);
    let standing = member_begun(alloc, member, marks, annotations.as_slice(), &promises)?;
    put_repeated(alloc, places, class, member, key, notes)?;
    let part = bind_part(alloc, view, places, class, member, notes)?;
    Ok(BoundTree {
        class: name,
        annotations,
        standing,
        part,
    })
}
