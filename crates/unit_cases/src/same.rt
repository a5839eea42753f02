//! Whether the units of a class are the same in two projects.

use crate::listing::{put_bind_lines, put_consults, put_key_line, put_places, put_unit_code};
use crate::units::{Project, project_of};
use anyhow::{Context, Result};
use std::alloc::Global;

// All that is printed of the units of a class.
fn shown(alloc: Global, project: &Project, class: &str) -> Result<String> {
    let mut out = String::new(alloc);
    for unit in project.units.as_slice() {
        if unit.tree().class.as_slice() == class.as_bytes() {
            put_key_line(&mut out, unit)?;
            put_bind_lines(&mut out, unit)?;
            put_consults(&mut out, unit)?;
            put_places(&mut out, unit)?;
            put_unit_code(alloc, &mut out, unit)?;
        }
    }
    Ok(out)
}

fn shown_in(alloc: Global, file: &str, class: &str) -> Result<String> {
    let project = project_of(alloc, file)?;
    shown(alloc, &project, class)
}

/// Whether what is printed of a class's units is the same in two files, between which a line `and` stands.
pub(crate) fn put_same(alloc: Global, out: &mut String, files: &str, class: &str) -> Result<()> {
    let (first, second) = files.split_once("\n  and\n").context("one file alone")?;
    let first = shown_in(alloc, first, class)?;
    let second = shown_in(alloc, second, class)?;
    out.push_str(if first.is_empty() {
        "no units"
    } else if first.as_str() == second.as_str() {
        "the same units"
    } else {
        "other units"
    })?;
    Ok(())
}
