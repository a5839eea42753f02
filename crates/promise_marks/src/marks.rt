ghost use Rattle.std.specs.Prelude.{◌≡◌, ◌++◌, [], ◌∷◌, None, Some, IfOk, OnOk};
ghost use Rattle.promise_marks.specs.Given as spec;
ghost use Rattle.promise_marks.specs.Marks.{AreMarks, IsMark, PutsMarks};

use crate::given::{content_of, held_by, name_of, tree_of};
use crate::mark::Mark;
use desk_base::{Items, OutOfMemory};
use java_tree::{Annot, AnnotLayer, ClassTree, InnerAnnot, MemberTree, Mod, Param};
use promise_grammar::PromiseKind;
use std::alloc::Global;

fn mark_of(
    alloc: Global,
    param: Option<usize>,
    kind: PromiseKind,
    layer: &AnnotLayer,
) -> Result<Mark, OutOfMemory>
    ensures { IfOk result (λ mark. IsMark (spec.given param kind layer.now) mark) }
{
    let content = content_of(alloc, layer)?;
    let tree = tree_of(alloc, kind, &content)?;
    Ok(Mark { param, kind, tree })
}

fn put_mark(
    alloc: Global,
    marks: &mut Items<Mark>,
    param: Option<usize>,
    kind: PromiseKind,
    layer: &AnnotLayer,
) -> Result<(), OutOfMemory>
    ensures { OnOk result (PutsMarks marks.old marks.new (spec.given param kind layer.now ∷ [])) }
{
    let mark = mark_of(alloc, param, kind, layer)?;
    marks.push(mark)?;
    Ok(())
}

fn put_held(
    alloc: Global,
    marks: &mut Items<Mark>,
    param: Option<usize>,
    kind: PromiseKind,
    layer: &AnnotLayer,
) -> Result<(), OutOfMemory>
    ensures { OnOk result (PutsMarks marks.old marks.new (spec.by_held param kind layer.now)) }
{
    if name_of(layer) == kind.name().text().as_bytes() {
        put_mark(alloc, marks, param, kind, layer)
    } else {
        Ok(())
    }
}

// Puts an annotation of a container, if it stands in no other one there.
fn put_inner(
    alloc: Global,
    marks: &mut Items<Mark>,
    param: Option<usize>,
    kind: PromiseKind,
    inner: &InnerAnnot,
) -> Result<(), OutOfMemory>
    ensures { OnOk result (PutsMarks marks.old marks.new (spec.by_inner param kind inner.now)) }
{
    if inner.depth == 1 {
        put_held(alloc, marks, param, kind, &inner.layer)
    } else {
        Ok(())
    }
}

// Puts the annotations that stand in a container of this kind.
fn put_container(
    alloc: Global,
    marks: &mut Items<Mark>,
    param: Option<usize>,
    kind: PromiseKind,
    inner: &[InnerAnnot],
) -> Result<(), OutOfMemory>
    ensures { OnOk result (PutsMarks marks.old marks.new (spec.by_all param kind inner.now)) }
{
    for annot in inner {
        put_inner(alloc, marks, param, kind, annot)?;
    }
    Ok(())
}

fn put_annot(
    alloc: Global,
    marks: &mut Items<Mark>,
    param: Option<usize>,
    annot: &Annot,
) -> Result<(), OutOfMemory>
    ensures { OnOk result (PutsMarks marks.old marks.new (spec.by_annot param annot.now)) }
{
    let name = name_of(&annot.layer);
    match PromiseKind::from_text(name) {
        Some(kind) => put_mark(alloc, marks, param, kind, &annot.layer),
        None => match held_by(name) {
            Some(kind) => put_container(alloc, marks, param, kind, annot.inner.as_slice()),
            None => Ok(()),
        },
    }
}

fn put_mod(
    alloc: Global,
    marks: &mut Items<Mark>,
    param: Option<usize>,
    modifier: &Mod,
) -> Result<(), OutOfMemory>
    ensures { OnOk result (PutsMarks marks.old marks.new (spec.by_mod param modifier.now)) }
{
    match modifier {
        Mod::Annot(annot) => put_annot(alloc, marks, param, annot),
        Mod::Word(_, _) => Ok(()),
    }
}

fn put_mods(
    alloc: Global,
    marks: &mut Items<Mark>,
    param: Option<usize>,
    mods: &[Mod],
) -> Result<(), OutOfMemory>
    ensures { OnOk result (PutsMarks marks.old marks.new (spec.by_mods param mods.now)) }
{
    for modifier in mods {
        put_mod(alloc, marks, param, modifier)?;
    }
    Ok(())
}

fn put_params(alloc: Global, marks: &mut Items<Mark>, params: &[Param]) -> Result<(), OutOfMemory>
    ensures { OnOk result (PutsMarks marks.old marks.new (spec.by_params 0 params.now)) }
{
    for (i, param) in params.iter().enumerate() {
        put_mods(alloc, marks, Some(i), param.mods.as_slice())?;
    }
    Ok(())
}

// Puts those of a member with parameters: its own, then theirs.
fn put_member(
    alloc: Global,
    marks: &mut Items<Mark>,
    mods: &[Mod],
    params: &[Param],
) -> Result<(), OutOfMemory>
    ensures { OnOk result (PutsMarks marks.old marks.new (spec.by_mods None mods.now ++ spec.by_params 0 params.now)) }
{
    put_mods(alloc, marks, None, mods)?;
    put_params(alloc, marks, params)
}

/// The promise annotations of a class's header, in written order; those in `@Regions`,
/// `@RegionLocks`, `@Promises` and `@Assumes` as they stand there.
pub fn header_marks(alloc: Global, class: &ClassTree) -> Result<Items<Mark>, OutOfMemory>
    ensures { IfOk result (λ marks. AreMarks (spec.by_header class.now) marks) }
{
    let mut marks = Items::new(alloc);
    put_mods(alloc, &mut marks, None, class.mods.as_slice())?;
    Ok(marks)
}

fn put_marks(alloc: Global, marks: &mut Items<Mark>, member: &MemberTree) -> Result<(), OutOfMemory>
    ensures { OnOk result (PutsMarks marks.old marks.new (spec.by_member member.now)) }
{
    match member {
        MemberTree::Field(field) => put_mods(alloc, marks, None, field.mods.as_slice()),
        MemberTree::Method(method) => {
            put_member(
                alloc,
                marks,
                method.mods.as_slice(),
                method.params.as_slice(),
            )
        }
        MemberTree::Sig(sig) => put_member(
            alloc,
            marks,
            sig.mods.as_slice(),
            sig.params.as_slice(),
        ),
        MemberTree::Ctor(ctor) => {
            put_member(alloc, marks, ctor.mods.as_slice(), ctor.params.as_slice())
        }
        MemberTree::Main(main) => put_mods(alloc, marks, None, main.mods.as_slice()),
    }
}

/// The promise annotations of a member: its own in written order, then those of its parameters.
pub fn member_marks(alloc: Global, member: &MemberTree) -> Result<Items<Mark>, OutOfMemory>
    ensures { IfOk result (λ marks. AreMarks (spec.by_member member.now) marks) }
{
    let mut marks = Items::new(alloc);
    put_marks(alloc, &mut marks, member)?;
    Ok(marks)
}
