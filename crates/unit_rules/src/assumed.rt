ghost use Rattle.std.specs.Prelude.{◌≡◌, ◌++◌, IfOk, OnOk};
ghost use Rattle.std.specs.List.{flat_map};
ghost use Rattle.std.specs.Option.{option_copied};
ghost use Rattle.promise_grammar.specs.declared.tree.PromiseTree.{out-PromiseTree};
ghost use Rattle.views.specs.Face.{face};
ghost use Rattle.bound_unit.specs.Names.{tree_names};
ghost use Rattle.unit_rules.specs.Assumed as spec;
ghost use Rattle.unit_rules.specs.Given.{all_written, written_as};

use crate::given::Written;
use bound_unit::{member_key, put_tree_names};
use class_faces::{MemberFace, ParamFace};
use desk_base::{Items, Name, OutOfMemory, PromiseKey, PromiseName, Text};
use name_rules::{Note, put_finding, put_name};
use promise_grammar::{MemberContent, MemberName, PromiseTree};
use result_records::FindingCode;
use std::alloc::Global;
use views::View;

fn assumed_name(name: &MemberName) -> &[u8]
    ensures { result.now ≡ spec.assumed_name name.now }
{
    match name {
        MemberName::Named(name) => name.as_slice(),
        MemberName::New => b"new",
    }
}

/// The key of the member that an assumption is about.
fn assumed_key(alloc: Global, member: &MemberContent) -> Result<Text, OutOfMemory>
    ensures { IfOk result (λ key. key ≡ spec.assumed_key member.now) }
{
    let name = assumed_name(&member.name);
    member_key(alloc, &member.class, name, member.count as usize)
}

fn params_if_any(member: Option<&MemberFace>) -> &[ParamFace]
    ensures { result.now ≡ spec.params_if_any (option_copied member.entry) }
{
    match member {
        Some(member) => member.params.as_slice(),
        None => &[],
    }
}

fn effects_key(alloc: Global, member: &MemberContent) -> Result<PromiseKey, OutOfMemory>
    ensures { IfOk result (λ key. key ≡ spec.effects_key member.now) }
{
    Ok(PromiseKey {
        target: assumed_key(alloc, member)?,
        name: PromiseName::RegionEffects,
        detail: Text::new(alloc),
    })
}

fn put_names(names: &[Name], notes: &mut Items<Note>) -> Result<(), OutOfMemory>
    ensures { OnOk result (notes.new ≡ notes.old ++ spec.named names.now) }
{
    for name in names {
        put_name(notes, name)?;
    }
    Ok(())
}

/// Puts the types that the assumed promise names.
fn put_content_names(
    alloc: Global,
    params: &[ParamFace],
    inner: &PromiseTree,
    member: &MemberContent,
    notes: &mut Items<Note>,
) -> Result<(), OutOfMemory>
    ensures { OnOk result (notes.new ≡ notes.old ++ spec.named (tree_names params.now (spec.effects_key member.now) inner.now)) }
{
    let key = effects_key(alloc, member)?;
    let mut names = Items::new(alloc);
    put_tree_names(alloc, params, &key, inner, &mut names)?;
    put_names(names.as_slice(), notes)
}

fn put_absent(
    member: Option<&MemberFace>,
    at: u32,
    notes: &mut Items<Note>,
) -> Result<(), OutOfMemory>
    ensures { OnOk result (notes.new ≡ notes.old ++ spec.absent (option_copied member.entry) at) }
{
    match member {
        Some(_) => Ok(()),
        None => put_finding(notes, FindingCode::BadAssume, at),
    }
}

fn put_assumption(
    alloc: Global,
    view: &View<'_>,
    at: u32,
    inner: &PromiseTree,
    member: &MemberContent,
    notes: &mut Items<Note>,
) -> Result<(), OutOfMemory>
    ensures { OnOk result (notes.new ≡ notes.old ++ spec.assumption_notes (face view.now) at inner.now member.now) }
{
    put_name(notes, &member.class)?;
    let key = assumed_key(alloc, member)?;
    let assumed = view.member(&member.class, &key);
    put_content_names(alloc, params_if_any(assumed), inner, member, notes)?;
    put_absent(assumed, at, notes)
}

fn put_content(
    alloc: Global,
    view: &View<'_>,
    at: u32,
    tree: &PromiseTree,
    notes: &mut Items<Note>,
) -> Result<(), OutOfMemory>
    ensures { OnOk result (notes.new ≡ notes.old ++ spec.content_notes (face view.now) at (out-PromiseTree tree.now)) }
{
    match tree {
        PromiseTree::Assume(inner, member) => {
            put_assumption(alloc, view, at, inner.get(), member, notes)
        }
        PromiseTree::Region(_)
        | PromiseTree::InRegion(_)
        | PromiseTree::RegionLock(_)
        | PromiseTree::RequiresLock(_)
        | PromiseTree::Unique(_)
        | PromiseTree::Borrowed(_)
        | PromiseTree::RegionEffects(_)
        | PromiseTree::Starts
        | PromiseTree::Promise(_, _)
        | PromiseTree::Vouch(_) => Ok(()),
    }
}

fn put_annotation(
    alloc: Global,
    view: &View<'_>,
    annotation: &Written<'_>,
    notes: &mut Items<Note>,
) -> Result<(), OutOfMemory>
    ensures { OnOk result (notes.new ≡ notes.old ++ spec.annotation_notes (face view.now) (written_as annotation.now)) }
{
    match annotation.content {
        Some(tree) => put_content(alloc, view, annotation.at, tree, notes),
        None => Ok(()),
    }
}

/// Puts what is found and consulted of the assumptions of a header.
pub(crate) fn put_assumptions(
    alloc: Global,
    view: &View<'_>,
    annotations: &[Written<'_>],
    notes: &mut Items<Note>,
) -> Result<(), OutOfMemory>
    ensures { OnOk result (notes.new ≡ notes.old ++ flat_map (spec.annotation_notes (face view.now)) (all_written annotations.now)) }
{
    for annotation in annotations {
        put_annotation(alloc, view, annotation, notes)?;
    }
    Ok(())
}
