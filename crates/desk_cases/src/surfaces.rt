//! How surfaces are printed for people who look at them.

use crate::content::put_content;
use anyhow::Result;
use class_faces::{FaceTy, FieldFace, MemberFace, ParamFace};
use desk_base::{Name, PromiseKey, Text};
use java_reader::read_file;
use java_tree::{ClassTree, TypeKind};
use promise_scrub::{Aside, Assumption, Standing, Surface, surface_of};
use region_tree::RegionDecl;
use std::alloc::Global;
use std::str;

pub(crate) fn put_bytes(out: &mut String, bytes: &[u8]) -> Result<()> {
    out.push_str(str::from_utf8(bytes).unwrap_or("?"))?;
    Ok(())
}

// A word where it holds.
fn put_if(out: &mut String, holds: bool, word: &str) -> Result<()> {
    if holds {
        out.push_str(word)?;
    }
    Ok(())
}

fn put_type(out: &mut String, ty: &FaceTy) -> Result<()> {
    match ty {
        FaceTy::Int => put_bytes(out, b"int"),
        FaceTy::Bool => put_bytes(out, b"boolean"),
        FaceTy::Named(name) => put_bytes(out, name.as_slice()),
        FaceTy::Args => put_bytes(out, b"String[]"),
    }
}

fn put_implements(out: &mut String, names: &[Name]) -> Result<()> {
    for name in names {
        out.push_str("  implements ")?;
        put_bytes(out, name.as_slice())?;
        out.push_str("\n")?;
    }
    Ok(())
}

fn put_field(out: &mut String, field: &FieldFace) -> Result<()> {
    out.push_str("  field ")?;
    put_if(out, field.is_static, "static ")?;
    put_if(out, field.is_final, "final ")?;
    put_type(out, &field.ty)?;
    out.push_str(" ")?;
    put_bytes(out, field.name.as_slice())?;
    put_if(out, field.final_init, " initialized")?;
    put_if(out, field.lock_form, " fit for a lock")?;
    out.push_str("\n")?;
    Ok(())
}

fn put_param(out: &mut String, param: &ParamFace) -> Result<()> {
    out.push_str(" ")?;
    put_if(out, !param.effectively_final, "assigned ")?;
    put_type(out, &param.ty)?;
    out.push_str(" ")?;
    put_bytes(out, param.name.as_slice())
}

fn put_params(out: &mut String, params: &[ParamFace]) -> Result<()> {
    for param in params {
        put_param(out, param)?;
    }
    Ok(())
}

fn put_member(out: &mut String, member: &MemberFace) -> Result<()> {
    out.push_str("  member ")?;
    put_if(out, member.is_static, "static ")?;
    match &member.result {
        Some(ty) => put_type(out, ty)?,
        None => out.push_str("void")?,
    }
    out.push_str(" ")?;
    out.push_str(member.key.as_str())?;
    put_params(out, member.params.as_slice())?;
    out.push_str("\n")?;
    Ok(())
}

fn put_decl(out: &mut String, decl: &RegionDecl) -> Result<()> {
    out.push_str("  region ")?;
    put_if(out, decl.is_static, "static ")?;
    put_bytes(out, decl.name.as_slice())?;
    if let Some(parent) = &decl.parent {
        out.push_str(" extends ")?;
        put_bytes(out, parent.as_slice())?;
    }
    out.push_str("\n")?;
    Ok(())
}

fn put_key(out: &mut String, key: &PromiseKey) -> Result<()> {
    out.push_str(key.target.as_str())?;
    out.push_str(" ")?;
    out.push_str(key.name.text())?;
    put_if(out, !key.detail.is_empty(), " ")?;
    out.push_str(key.detail.as_str())?;
    Ok(())
}

fn put_standing(out: &mut String, promise: &Standing) -> Result<()> {
    out.push_str("  stands ")?;
    put_key(out, &promise.key)?;
    out.push_str(" (")?;
    put_content(out, promise.tree.get())?;
    out.push_str(")\n")?;
    Ok(())
}

fn put_aside(out: &mut String, promise: &Aside) -> Result<()> {
    out.push_str("  ")?;
    out.push_str(promise.code.code())?;
    out.push_str(" ")?;
    put_key(out, &promise.key)?;
    out.push_str("\n")?;
    Ok(())
}

fn put_assumption(out: &mut String, assumption: &Assumption) -> Result<()> {
    out.push_str("  assumes ")?;
    put_bytes(out, assumption.class.as_slice())?;
    out.push_str(" ")?;
    out.push_str(assumption.member.as_str())?;
    out.push_str(": ")?;
    put_key(out, &assumption.key)?;
    out.push_str(" (")?;
    put_content(out, assumption.tree.get())?;
    out.push_str(")\n")?;
    Ok(())
}

fn put_vouched(out: &mut String, unit: &Text) -> Result<()> {
    out.push_str("  vouched ")?;
    out.push_str(unit.as_str())?;
    out.push_str("\n")?;
    Ok(())
}

fn put_shape(out: &mut String, surface: &Surface) -> Result<()> {
    out.push_str(match surface.kind {
        TypeKind::Class => "class ",
        TypeKind::Interface => "interface ",
    })?;
    put_bytes(out, surface.name.as_slice())?;
    out.push_str("\n")?;
    put_implements(out, surface.implements.as_slice())?;
    for field in surface.fields.as_slice() {
        put_field(out, field)?;
    }
    for member in surface.members.as_slice() {
        put_member(out, member)?;
    }
    for decl in surface.regions.as_slice() {
        put_decl(out, decl)?;
    }
    Ok(())
}

/// A surface, a line for each thing that it says.
fn put_surface(out: &mut String, surface: &Surface) -> Result<()> {
    put_shape(out, surface)?;
    for promise in surface.standing.as_slice() {
        put_standing(out, promise)?;
    }
    for promise in surface.aside.as_slice() {
        put_aside(out, promise)?;
    }
    for assumption in surface.assumptions.as_slice() {
        put_assumption(out, assumption)?;
    }
    for unit in surface.vouched.as_slice() {
        put_vouched(out, unit)?;
    }
    Ok(())
}

fn put_class(alloc: Global, out: &mut String, class: &ClassTree) -> Result<()> {
    put_surface(out, &surface_of(alloc, class)?)
}

/// What each class of a Java file says to the others, in the order of the file, a line for each thing.
pub(crate) fn put_surfaces(alloc: Global, out: &mut String, text: &[u8]) -> Result<()> {
    let file = read_file(alloc, text)?;
    for class in file.types.as_slice() {
        put_class(alloc, out, class)?;
    }
    Ok(())
}
