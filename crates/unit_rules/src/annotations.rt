ghost use Rattle.std.specs.Prelude.{◌≡◌, ◌++◌, IfOk, OnOk};
ghost use Rattle.std.specs.List.{flat_map};
ghost use Rattle.promise_marks.specs.Given.{last_name, name_of as goes_by, held_by as holds};
ghost use Rattle.tree_places.specs.Numbers.{number_of};
ghost use Rattle.unit_rules.specs.Annotations as spec;

use desk_base::{Items, OutOfMemory};
use expression_binding::Places;
use java_tree::{Annot, AnnotLayer, ClassTree, InnerAnnot, Lexeme, MemberTree, Mod, Param};
use promise_grammar::PromiseKind;
use std::alloc::Global;

fn last_word(words: &[Lexeme]) -> &[u8]
    ensures { result.now ≡ last_name words.now }
{
    match words {
        [] => &[],
        [.., last] => last.text.as_slice(),
    }
}

/// The name that an annotation goes by.
fn name_of(layer: &AnnotLayer) -> &[u8]
    ensures { result.now ≡ goes_by layer.now }
{
    last_word(layer.name.as_slice())
}

/// What a container of that name holds.
fn held_by(name: &[u8]) -> Option<PromiseKind>
    ensures { result ≡ holds name.now }
{
    if name == b"Regions".as_slice() {
        Some(PromiseKind::Region)
    } else if name == b"RegionLocks".as_slice() {
        Some(PromiseKind::RegionLock)
    } else if name == b"Promises".as_slice() {
        Some(PromiseKind::Promise)
    } else if name == b"Assumes".as_slice() {
        Some(PromiseKind::Assume)
    } else {
        None
    }
}

fn put_layer(
    places: &Places<'_>,
    layer: &AnnotLayer,
    out: &mut Items<u32>,
) -> Result<(), OutOfMemory>
    ensures { OnOk result (out.new ≡ out.old ++ spec.begins (number_of places.now) layer.now) }
{
    out.push(places.place(layer.at))?;
    Ok(())
}

fn put_held(
    places: &Places<'_>,
    kind: PromiseKind,
    layer: &AnnotLayer,
    out: &mut Items<u32>,
) -> Result<(), OutOfMemory>
    ensures { OnOk result (out.new ≡ out.old ++ spec.held_begins (number_of places.now) kind layer.now) }
{
    if name_of(layer) == kind.name().text().as_bytes() {
        put_layer(places, layer, out)
    } else {
        Ok(())
    }
}

fn put_inner(
    places: &Places<'_>,
    kind: PromiseKind,
    inner: &InnerAnnot,
    out: &mut Items<u32>,
) -> Result<(), OutOfMemory>
    ensures { OnOk result (out.new ≡ out.old ++ spec.inner_begins (number_of places.now) kind inner.now) }
{
    if inner.depth == 1 {
        put_held(places, kind, &inner.layer, out)
    } else {
        Ok(())
    }
}

fn put_all_inner(
    places: &Places<'_>,
    kind: PromiseKind,
    inner: &[InnerAnnot],
    out: &mut Items<u32>,
) -> Result<(), OutOfMemory>
    ensures { OnOk result (out.new ≡ out.old ++ flat_map (spec.inner_begins (number_of places.now) kind) inner.now) }
{
    for annot in inner {
        put_inner(places, kind, annot, out)?;
    }
    Ok(())
}

fn put_container(
    places: &Places<'_>,
    kind: Option<PromiseKind>,
    inner: &[InnerAnnot],
    out: &mut Items<u32>,
) -> Result<(), OutOfMemory>
    ensures { OnOk result (out.new ≡ out.old ++ spec.container_begins (number_of places.now) kind inner.now) }
{
    match kind {
        Some(kind) => put_all_inner(places, kind, inner, out),
        None => Ok(()),
    }
}

fn put_annot(
    places: &Places<'_>,
    kind: Option<PromiseKind>,
    annot: &Annot,
    out: &mut Items<u32>,
) -> Result<(), OutOfMemory>
    ensures { OnOk result (out.new ≡ out.old ++ spec.kind_begins (number_of places.now) kind annot.now) }
{
    match kind {
        Some(_) => put_layer(places, &annot.layer, out),
        None => {
            let held = held_by(name_of(&annot.layer));
            put_container(places, held, annot.inner.as_slice(), out)
        }
    }
}

fn put_mod(places: &Places<'_>, modifier: &Mod, out: &mut Items<u32>) -> Result<(), OutOfMemory>
    ensures { OnOk result (out.new ≡ out.old ++ spec.mod_begins (number_of places.now) modifier.now) }
{
    match modifier {
        Mod::Annot(annot) => {
            let kind = PromiseKind::from_text(name_of(&annot.layer));
            put_annot(places, kind, annot, out)
        }
        Mod::Word(_, _) => Ok(()),
    }
}

fn put_mods(places: &Places<'_>, mods: &[Mod], out: &mut Items<u32>) -> Result<(), OutOfMemory>
    ensures { OnOk result (out.new ≡ out.old ++ spec.mods_begin (number_of places.now) mods.now) }
{
    for modifier in mods {
        put_mod(places, modifier, out)?;
    }
    Ok(())
}

fn put_params(
    places: &Places<'_>,
    params: &[Param],
    out: &mut Items<u32>,
) -> Result<(), OutOfMemory>
    ensures { OnOk result (out.new ≡ out.old ++ flat_map (spec.param_begins (number_of places.now)) params.now) }
{
    for param in params {
        put_mods(places, param.mods.as_slice(), out)?;
    }
    Ok(())
}

fn put_with_params(
    places: &Places<'_>,
    mods: &[Mod],
    params: &[Param],
    out: &mut Items<u32>,
) -> Result<(), OutOfMemory>
    ensures { OnOk result (out.new ≡ out.old ++ spec.with_params (number_of places.now) mods.now params.now) }
{
    put_mods(places, mods, out)?;
    put_params(places, params, out)
}

fn put_member(
    places: &Places<'_>,
    member: &MemberTree,
    out: &mut Items<u32>,
) -> Result<(), OutOfMemory>
    ensures { OnOk result (out.new ≡ out.old ++ spec.member_begins (number_of places.now) member.now) }
{
    match member {
        MemberTree::Field(field) => put_mods(places, field.mods.as_slice(), out),
        MemberTree::Method(method) => {
            put_with_params(
                places,
                method.mods.as_slice(),
                method.params.as_slice(),
                out,
            )
        }
        MemberTree::Sig(sig) => {
            put_with_params(places, sig.mods.as_slice(), sig.params.as_slice(), out)
        }
        MemberTree::Ctor(ctor) => {
            put_with_params(places, ctor.mods.as_slice(), ctor.params.as_slice(), out)
        }
        MemberTree::Main(main) => put_mods(places, main.mods.as_slice(), out),
    }
}

/// For each promise annotation of a header, in written order, the number of its `@`.
pub fn header_begins(
    alloc: Global,
    places: &Places<'_>,
    class: &ClassTree,
) -> Result<Items<u32>, OutOfMemory>
    ensures { IfOk result (λ begins. begins ≡ spec.header_begins (number_of places.now) class.now) }
{
    let mut begins = Items::new(alloc);
    put_mods(places, class.mods.as_slice(), &mut begins)?;
    Ok(begins)
}

/// For each promise annotation of a member, its own in written order and then those of its parameters,
/// the number of its `@`.
pub fn member_begins(
    alloc: Global,
    places: &Places<'_>,
    member: &MemberTree,
) -> Result<Items<u32>, OutOfMemory>
    ensures { IfOk result (λ begins. begins ≡ spec.member_begins (number_of places.now) member.now) }
{
    let mut begins = Items::new(alloc);
    put_member(places, member, &mut begins)?;
    Ok(begins)
}
