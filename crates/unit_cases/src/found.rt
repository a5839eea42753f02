//! What binding finds, and the names that units consult.

use crate::listing::put_consults;
use crate::print::put_finding;
use crate::units::Project;
use anyhow::Result;
use std::alloc::Global;

/// The bind findings of all units, a line for each.
pub(crate) fn put_bind_findings(alloc: Global, out: &mut String, project: &Project) -> Result<()> {
    for unit in project.units.as_slice() {
        for finding in unit.bind_findings() {
            put_finding(alloc, out, finding)?;
            out.push('\n')?;
        }
    }
    Ok(())
}

/// The names that the unit of the key consults.
pub(crate) fn put_consulted(out: &mut String, project: &Project, key: &str) -> Result<()> {
    put_consults(out, project.unit(key)?)
}
