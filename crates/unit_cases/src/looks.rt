//! What a class sees of the types of a project. A case is a Java file, a line `asked`, and the look-ups, one
//! a line: a word, the type, and what is looked for there.

use crate::print::{first_word, put_bytes, put_promise};
use crate::units::{class_view, project_of};
use anyhow::{Context, Result, bail};
use class_faces::{FaceTy, FieldFace, MemberFace};
use desk_base::{Name, PromiseKey, PromiseName, Text};
use promise_grammar::PromiseTree;
use std::alloc::Global;
use views::{Surfaces, View};

fn put_type(out: &mut String, ty: &FaceTy) -> Result<()> {
    match ty {
        FaceTy::Int => put_bytes(out, b"int"),
        FaceTy::Bool => put_bytes(out, b"boolean"),
        FaceTy::Named(name) => put_bytes(out, name.as_slice()),
        FaceTy::Args => put_bytes(out, b"String[]"),
    }
}

fn put_is(out: &mut String, is: bool) -> Result<()> {
    out.push_str(if is { "yes" } else { "no" })?;
    Ok(())
}

fn put_field(out: &mut String, field: Option<&FieldFace>) -> Result<()> {
    match field {
        Some(field) => put_type(out, &field.ty),
        None => put_bytes(out, b"none"),
    }
}

fn put_member(out: &mut String, member: Option<&MemberFace>) -> Result<()> {
    match member {
        Some(member) => put_bytes(out, member.key.as_slice()),
        None => put_bytes(out, b"none"),
    }
}

fn name_of(alloc: Global, word: &str) -> Result<Name> {
    Ok(Name::from_slice(alloc, word.as_bytes())?)
}

const NAMES: [PromiseName; 11] = [
    PromiseName::Assume,
    PromiseName::Borrowed,
    PromiseName::InRegion,
    PromiseName::Promise,
    PromiseName::Region,
    PromiseName::RegionEffects,
    PromiseName::RegionLock,
    PromiseName::RequiresLock,
    PromiseName::Starts,
    PromiseName::Unique,
    PromiseName::Vouch,
];

// A promise's key as it is written: its target, its kind and its detail.
fn promise_of(alloc: Global, words: &str) -> Result<PromiseKey> {
    let (target, rest) = first_word(words);
    let (kind, detail) = first_word(rest);
    for name in NAMES {
        if name.text() == kind {
            return Ok(PromiseKey {
                target: Text::from_text(alloc, target)?,
                name,
                detail: Text::from_text(alloc, detail)?,
            });
        }
    }
    bail!("no promise {words}")
}

fn put_interfaces(out: &mut String, view: &View<'_>, class: &Name) -> Result<()> {
    for name in view.interfaces(class) {
        put_bytes(out, name.as_slice())?;
        out.push(' ')?;
    }
    Ok(())
}

fn put_members(out: &mut String, view: &View<'_>, class: &Name) -> Result<()> {
    for member in view.members(class) {
        put_member(out, Some(member))?;
        out.push(' ')?;
    }
    Ok(())
}

fn put_standing(
    alloc: Global,
    out: &mut String,
    view: &View<'_>,
    class: &Name,
    words: &str,
) -> Result<()> {
    match view.standing(class, &promise_of(alloc, words)?) {
        Some(_) => put_bytes(out, b"stands"),
        None => put_bytes(out, b"none"),
    }
}

fn put_assumed(
    alloc: Global,
    out: &mut String,
    view: &View<'_>,
    class: &Name,
    words: &str,
) -> Result<()> {
    match view.assumed(class, &promise_of(alloc, words)?) {
        Some(found) => {
            out.push_str("about ")?;
            put_bytes(out, found.class.as_slice())?;
            out.push(' ')?;
            put_bytes(out, found.member.as_slice())
        }
        None => put_bytes(out, b"none"),
    }
}

fn put_promises_at(
    alloc: Global,
    out: &mut String,
    view: &View<'_>,
    class: &Name,
    unit: &str,
) -> Result<()> {
    let promises = view.standing_at(class, &Text::from_text(alloc, unit)?);
    for at in 0..promises.len() {
        if let Some(promise) = promises.get(at) {
            put_promise(alloc, out, &promise.key)?;
            out.push_str("; ")?;
        }
    }
    Ok(())
}

fn put_lock(out: &mut String, view: &View<'_>, class: &Name, name: &Name) -> Result<()> {
    let Some(promise) = view.lock(class, name) else {
        return put_bytes(out, b"none");
    };
    let PromiseTree::RegionLock(lock) = promise.tree.get() else {
        bail!("no lock");
    };
    let is_static = view.lock_is_static(class, &lock.holder);
    out.push_str(if is_static { "static" } else { "instance" })?;
    Ok(())
}

fn put_region(out: &mut String, kind: Option<bool>) -> Result<()> {
    out.push_str(match kind {
        Some(true) => "static",
        Some(false) => "instance",
        None => "none",
    })?;
    Ok(())
}

fn put_kind(out: &mut String, view: &View<'_>, class: &Name) -> Result<()> {
    match view.kind(class) {
        Some(kind) => write!(out, "{kind:?}")?,
        None => out.push_str("none")?,
    }
    Ok(())
}

// The look-ups by promises, units and keys.
fn put_keyed(
    alloc: Global,
    out: &mut String,
    view: &View<'_>,
    asked: &str,
    class: &Name,
    words: &str,
) -> Result<()> {
    match asked {
        "standing" => put_standing(alloc, out, view, class, words),
        "assumed" => put_assumed(alloc, out, view, class, words),
        "promises" => put_promises_at(alloc, out, view, class, words),
        "member" => put_member(out, view.member(class, &Text::from_text(alloc, words)?)),
        "vouched" => put_is(out, view.is_vouched(class, &Text::from_text(alloc, words)?)),
        _ => bail!("nothing is asked by {asked}"),
    }
}

// The look-ups by names.
fn put_named(
    alloc: Global,
    out: &mut String,
    view: &View<'_>,
    asked: &str,
    class: &Name,
    words: &str,
) -> Result<()> {
    let (first, second) = first_word(words);
    let name = name_of(alloc, first)?;
    match asked {
        "implements" => put_is(out, view.implements(class, &name)),
        "field" => put_field(out, view.field(class, &name)),
        "lock" => put_lock(out, view, class, &name),
        "region" => put_region(out, view.region_kind(class, &name)),
        "under" => {
            let above = name_of(alloc, second)?;
            put_is(out, view.region_is_under(class, &name, &above))
        }
        "field-under" => {
            let above = name_of(alloc, second)?;
            put_is(out, view.field_is_under(class, &name, &above))
        }
        _ => put_keyed(alloc, out, view, asked, class, words),
    }
}

fn put_asked(alloc: Global, out: &mut String, view: &View<'_>, line: &str) -> Result<()> {
    let (asked, rest) = first_word(line);
    let (class, words) = first_word(rest);
    let class = name_of(alloc, class)?;
    match asked {
        "kind" => put_kind(out, view, &class),
        "interfaces" => put_interfaces(out, view, &class),
        "members" => put_members(out, view, &class),
        "constructor" => put_member(out, view.constructor(&class)),
        _ => put_named(alloc, out, view, asked, &class, words),
    }
}

fn put_answer(alloc: Global, out: &mut String, view: &View<'_>, line: &str) -> Result<()> {
    let mut answer = String::new(alloc);
    put_asked(alloc, &mut answer, view, line)?;
    writeln!(out, "{line}: {}", answer.as_str().trim_end())?;
    Ok(())
}

fn put_answers(
    alloc: Global,
    out: &mut String,
    surfaces: &Surfaces,
    class: &str,
    lines: &str,
) -> Result<()> {
    let class = name_of(alloc, class)?;
    let view = class_view(surfaces, &class)?;
    for line in lines.lines() {
        put_answer(alloc, out, &view, line.trim())?;
    }
    Ok(())
}

/// What the class of the heading sees: each look-up and what it answers.
pub(crate) fn put_look(alloc: Global, out: &mut String, class: &str, case: &str) -> Result<()> {
    let (file, lines) = case.split_once("\n  asked\n").context("nothing is asked")?;
    let project = project_of(alloc, file)?;
    put_answers(alloc, out, &project.surfaces, class, lines)
}
