//! The listing of a unit: its key, what binding finds in it, the names that it consults, and its code with
//! the places of the code's steps. `tools/unit_listing.sh` says how a line is read.

use crate::code::put_code;
use crate::print::put_bytes;
use crate::units::Project;
use anyhow::Result;
use bound_tree::{Body, Part, Stmt};
use bound_unit::BoundUnit;
use std::alloc::Global;

// Puts the statements inside a statement on top of those that are still to be seen, and answers whether it
// declares a local.
fn open_stmt<'a>(left: &mut Vec<&'a Stmt>, stmt: &'a Stmt) -> Result<bool> {
    match stmt {
        Stmt::Declare(_, _, _, _) => return Ok(true),
        Stmt::Block(list) => {
            for inner in list.as_slice() {
                left.push(inner)?;
            }
        }
        Stmt::If(_, yes, no) => {
            left.push(yes.get())?;
            left.push(no.get())?;
        }
        Stmt::While(_, body) => left.push(body.get())?,
        Stmt::Sync(_, body) => left.push(body.get())?,
        Stmt::SyncClass(_, _, body) => left.push(body.get())?,
        Stmt::Assign(_, _)
        | Stmt::Compound(_, _, _)
        | Stmt::Perform(_)
        | Stmt::Start(_, _)
        | Stmt::Return(_)
        | Stmt::ReturnValue(_, _) => {}
    }
    Ok(false)
}

fn declared_locals(alloc: Global, block: &Stmt) -> Result<usize> {
    let mut left = Vec::new(alloc);
    left.push(block)?;
    let mut count = 0usize;
    for _ in 0..u64::MAX {
        let Some(stmt) = left.pop() else {
            break;
        };
        if open_stmt(&mut left, stmt)? {
            count = count.saturating_add(1);
        }
    }
    Ok(count)
}

fn one_if(is: bool) -> usize {
    if is { 1 } else { 0 }
}

// A main has one parameter, which isn't listed.
fn is_main(unit: &BoundUnit, body: &Body) -> bool {
    body.params.is_empty() && unit.key().as_str().ends_with(".main/1")
}

fn body_locals(alloc: Global, unit: &BoundUnit, body: &Body) -> Result<usize> {
    let first = one_if(!body.is_static).saturating_add(one_if(is_main(unit, body)));
    let declared = declared_locals(alloc, &body.block)?;
    Ok(
        first
            .saturating_add(body.params.len())
            .saturating_add(declared),
    )
}

/// How many locals a unit has: `this` where there is one, the parameters, and those declared in it.
fn locals_of(alloc: Global, unit: &BoundUnit) -> Result<usize> {
    match &unit.tree().part {
        Part::Header(_) | Part::Field(_, _) => Ok(0),
        Part::Sig(params, _) => Ok(params.len().saturating_add(1)),
        Part::Body(body) => body_locals(alloc, unit, body),
    }
}

/// The line of the unit's key.
pub(crate) fn put_key_line(out: &mut String, unit: &BoundUnit) -> Result<()> {
    writeln!(out, "unit {}", unit.key().as_str())?;
    Ok(())
}

/// A line for each bind finding.
pub(crate) fn put_bind_lines(out: &mut String, unit: &BoundUnit) -> Result<()> {
    for finding in unit.bind_findings() {
        let (code, subject) = (finding.key.code.code(), finding.subject.as_str());
        writeln!(out, "bind {code} {} {subject}", finding.place)?;
    }
    Ok(())
}

/// The names that the unit consults, in a line behind a word.
pub(crate) fn put_consults(out: &mut String, unit: &BoundUnit) -> Result<()> {
    out.push_str("consults")?;
    for name in unit.consulted() {
        out.push(' ')?;
        put_bytes(out, name.as_slice())?;
    }
    out.push('\n')?;
    Ok(())
}

/// The places of the steps of the unit's code.
pub(crate) fn put_places(out: &mut String, unit: &BoundUnit) -> Result<()> {
    out.push_str("places")?;
    for place in unit.places() {
        write!(out, " {place}")?;
    }
    out.push('\n')?;
    Ok(())
}

/// The unit's code.
pub(crate) fn put_unit_code(alloc: Global, out: &mut String, unit: &BoundUnit) -> Result<()> {
    writeln!(out, "code {}", locals_of(alloc, unit)?)?;
    put_code(alloc, out, unit.code())
}

/// The listing of the units of a project, or of the one of the key, where all of them bind.
pub(crate) fn put_code_of(
    alloc: Global,
    out: &mut String,
    project: &Project,
    key: &str,
) -> Result<()> {
    if !project.binds() {
        return Ok(());
    }
    for unit in project.units.as_slice() {
        if key.is_empty() || unit.key().as_str() == key {
            put_key_line(out, unit)?;
            put_places(out, unit)?;
            put_unit_code(alloc, out, unit)?;
        }
    }
    Ok(())
}
