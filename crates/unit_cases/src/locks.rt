//! Findings of the check of locks, each with its alternatives.

use crate::print::{put_finding, put_promise};
use crate::units::{Project, class_view};
use anyhow::Result;
use bound_unit::{Analysis, BoundUnit};
use desk_base::Items;
use lock_check::LockCheck;
use result_records::{Alternative, Finding, FindingLink, VouchKey};
use std::alloc::Global;
use views::Surfaces;

fn put_link(alloc: Global, out: &mut String, link: &FindingLink) -> Result<()> {
    match link {
        FindingLink::Promise(key) => put_promise(alloc, out, key),
        FindingLink::Vouched(VouchKey::Source { unit: text }) => {
            write!(out, "vouch in {}", text.as_str())?;
            Ok(())
        }
        FindingLink::Vouched(VouchKey::Desk { finding: text }) => {
            write!(out, "vouch for {}", text.as_str())?;
            Ok(())
        }
        FindingLink::Assumed { class: _, promise } => {
            out.push_str("assumed ")?;
            put_promise(alloc, out, promise)
        }
    }
}

// An alternative without links holds by nothing else.
fn put_alternative(alloc: Global, out: &mut String, links: &Alternative) -> Result<()> {
    if links.is_empty() {
        out.push_str("held")?;
    }
    for (at, link) in links.as_slice().iter().enumerate() {
        out.push_str(if at == 0 { "by " } else { " and " })?;
        put_link(alloc, out, link)?;
    }
    Ok(())
}

fn put_alternatives(alloc: Global, out: &mut String, finding: &Finding) -> Result<()> {
    if finding.fails() {
        out.push_str(", fails")?;
    }
    for (at, links) in finding.alternatives.as_slice().iter().enumerate() {
        out.push_str(if at == 0 { ", " } else { " or " })?;
        put_alternative(alloc, out, links)?;
    }
    Ok(())
}

/// The findings on locks in a unit.
pub(crate) fn lock_findings(
    alloc: Global,
    surfaces: &Surfaces,
    unit: &BoundUnit,
) -> Result<Items<Finding>> {
    let view = class_view(surfaces, &unit.tree().class)?;
    let mut found = Items::new(alloc);
    LockCheck.judge(alloc, unit, &view, &mut found)?;
    Ok(found)
}

/// The findings on locks in all units, a line for each.
pub(crate) fn put_lock_findings(alloc: Global, out: &mut String, project: &Project) -> Result<()> {
    for unit in project.units.as_slice() {
        let found = lock_findings(alloc, &project.surfaces, unit)?;
        for finding in found.as_slice() {
            put_finding(alloc, out, finding)?;
            put_alternatives(alloc, out, finding)?;
            out.push('\n')?;
        }
    }
    Ok(())
}
