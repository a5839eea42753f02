ghost use Rattle.std.specs.Prelude.{◌≡◌, ◌<◌, ◌++◌, length, IfOk, OnOk, Some};
ghost use Rattle.std.specs.Option.{option_copied};
ghost use Rattle.promise_marks.specs.Marks.{AreMarks};
ghost use Rattle.views.specs.Face.{face};
ghost use Rattle.bound_unit.specs.Made.{made};
ghost use Rattle.unit_rules.specs.Consulted.{consulted};
ghost use Rattle.unit_rules.specs.Faults.{faults};
ghost use Rattle.binder.specs.Trees.{tree_as};
ghost use Rattle.binder.specs.Units as spec;

use crate::member::bind_member;
use bound_tree::BoundTree;
use bound_unit::BoundUnit;
use class_faces::{member_keys, text_of};
use desk_base::{Items, OutOfMemory, Text};
use expression_binding::Places;
use java_tree::{ClassTree, MemberTree, Token};
use name_rules::Note;
use promise_marks::{Mark, header_marks, member_marks};
use std::alloc::Global;
use unit_rules::{bind_findings, bind_header, consulted_names};
use views::View;

fn member_tokens(member: &MemberTree) -> &[Token]
    ensures { result.now ≡ spec.member_tokens member.now }
{
    match member {
        MemberTree::Field(field) => field.tokens.as_slice(),
        MemberTree::Method(method) => method.tokens.as_slice(),
        MemberTree::Sig(sig) => sig.tokens.as_slice(),
        MemberTree::Ctor(ctor) => ctor.tokens.as_slice(),
        MemberTree::Main(main) => main.tokens.as_slice(),
    }
}

/// The tokens of a unit: the header's, or those of the member.
fn tokens_in<'c>(class: &'c ClassTree, member: Option<&'c MemberTree>) -> &'c [Token]
    ensures { result.now ≡ spec.tokens_in class.now (option_copied member.entry) }
{
    match member {
        Some(member) => member_tokens(member),
        None => class.tokens.as_slice(),
    }
}

fn marks_of(
    alloc: Global,
    class: &ClassTree,
    member: Option<&MemberTree>,
) -> Result<Items<Mark>, OutOfMemory>
    ensures { IfOk result (λ marks. AreMarks (spec.given_of class.now (option_copied member.entry)) marks) }
{
    match member {
        Some(member) => member_marks(alloc, member),
        None => header_marks(alloc, class),
    }
}

fn bind_tree(
    alloc: Global,
    class: &ClassTree,
    member: Option<&MemberTree>,
    key: &Text,
    view: &View<'_>,
    marks: &[Mark],
    notes: &mut Items<Note>,
) -> Result<BoundTree, OutOfMemory>
    ensures tree { IfOk result (λ tree. tree_as tree ≡ (spec.bound_under class.now (option_copied member.entry) key.now view.now marks.now).tree) }
    ensures notes { OnOk result (notes.new ≡ notes.old ++ (spec.bound_under class.now (option_copied member.entry) key.now view.now marks.now).notes) }
{
    let places = Places::new(tokens_in(class, member))?;
    match member {
        Some(member) => {
            let name = &class.name.text;
            bind_member(alloc, view, &places, name, member, key, marks, notes)
        }
        None => bind_header(alloc, view, &places, class, key, marks, notes),
    }
}

/// The unit of a tree, with what is told of it.
fn told_unit(
    alloc: Global,
    key: Text,
    tree: BoundTree,
    notes: &[Note],
    tokens: &[Token],
    view: &View<'_>,
) -> Result<BoundUnit, OutOfMemory>
    ensures { IfOk result (λ unit. unit ≡ made key tree (faults key tokens.now notes.now) (consulted (face view.now) key tree notes.now)) }
{
    let findings = bind_findings(alloc, &key, tokens, notes)?;
    let consulted = consulted_names(alloc, view, &key, &tree, notes)?;
    BoundUnit::new(alloc, key, tree, findings, consulted)
}

fn bind_by(
    alloc: Global,
    class: &ClassTree,
    member: Option<&MemberTree>,
    key: Text,
    view: &View<'_>,
    marks: &[Mark],
) -> Result<BoundUnit, OutOfMemory>
    ensures { IfOk result (spec.IsBoundBy class.now (option_copied member.entry) key view.now marks.now) }
{
    let mut notes = Items::new(alloc);
    let tree = bind_tree(alloc, class, member, &key, view, marks, &mut notes)?;
    told_unit(
        alloc,
        key,
        tree,
        notes.as_slice(),
        tokens_in(class, member),
        view,
    )
}

/// The header of a class, or a member of it, bound under a view, as the unit of a key. For all units of
/// a class the keys are those of `member_keys`, and the header's is the class's name, so that no key is
/// counted for each unit anew. The one error is want of memory, also where a unit has more tokens or
/// locals than 32 bits can count.
pub fn bind_keyed(
    alloc: Global,
    class: &ClassTree,
    member: Option<&MemberTree>,
    key: Text,
    view: &View<'_>,
) -> Result<BoundUnit, OutOfMemory>
    ensures { IfOk result (spec.IsBound class.now (option_copied member.entry) key view.now) }
{
    let marks = marks_of(alloc, class, member)?;
    bind_by(alloc, class, member, key, view, marks.as_slice())
}

/// The key of the member of a number.
fn member_key(alloc: Global, class: &ClassTree, number: u32) -> Result<Text, OutOfMemory>
    requires { number < length class.now.members }
    ensures { IfOk result (λ key. key ≡ spec.key_at class.now (Some number)) }
{
    let keys = member_keys(alloc, class)?;
    Ok(keys.as_slice()[number as usize].clone()?)
}

/// The key of the header, or of the member of a number.
fn key_at(alloc: Global, class: &ClassTree, member: Option<u32>) -> Result<Text, OutOfMemory>
    requires { spec.IsUnit class.now member }
    ensures { IfOk result (λ key. key ≡ spec.key_at class.now member) }
{
    match member {
        Some(number) => member_key(alloc, class, number),
        None => text_of(alloc, class.name.text.as_slice()),
    }
}

fn member_at(class: &ClassTree, member: Option<u32>) -> Option<&MemberTree>
    requires { spec.IsUnit class.now member }
    ensures { option_copied result ≡ spec.member_at class.now member }
{
    match member {
        Some(number) => Some(&class.members.as_slice()[number as usize]),
        None => None,
    }
}

/// The header of a class, which has no number, or the member of a number in written order, from 0,
/// bound under the class's view: its tree, its bind findings and the names that it consults. The one
/// error is want of memory.
pub fn bind_unit(
    alloc: Global,
    class: &ClassTree,
    member: Option<u32>,
    view: &View<'_>,
) -> Result<BoundUnit, OutOfMemory>
    requires { spec.IsUnit class.now member }
    ensures { IfOk result (spec.IsBound class.now (spec.member_at class.now member) (spec.key_at class.now member) view.now) }
{
    let key = key_at(alloc, class, member)?;
    bind_keyed(alloc, class, member_at(class, member), key, view)
}
