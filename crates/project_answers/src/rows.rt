ghost use Rattle.std.specs.Prelude.{◌≡◌, ◌++◌, IfOk, OnOk, map};
ghost use Rattle.project_answers.specs.Gathered.{finding_of, is_standing_code, site_of};
ghost use Rattle.project_answers.specs.Rows as spec;

use crate::sited::{Site, Sited};
use desk_base::{Bytes, Items, OutOfMemory};
use report::FindingRow;
use result_records::{Finding, FindingCode};
use std::alloc::Global;

/// Findings and where they are, apart.
#[derive(Drop)]
pub(crate) struct Apart {
    pub(crate) findings: Vec<Finding>,
    pub(crate) sites: Vec<Site>,
}

/// The findings and where they are, apart.
pub(crate) fn take_apart(alloc: Global, found: Vec<Sited>) -> Result<Apart, OutOfMemory>
    ensures findings { IfOk result (λ apart. apart.findings.items ≡ map finding_of found.items) }
    ensures sites { IfOk result (λ apart. apart.sites.items ≡ map site_of found.items) }
{
    let mut findings = Vec::new(alloc);
    let mut sites = Vec::new(alloc);
    for Sited { finding, site } in found {
        findings.push(finding)?;
        sites.push(site)?;
    }
    Ok(Apart { findings, sites })
}

fn path_at(alloc: Global, paths: &[Bytes], file: u32) -> Result<Bytes, OutOfMemory>
    ensures { IfOk result (λ path. path ≡ spec.path_at paths.now file) }
{
    match paths.get(file as usize) {
        Some(path) => Ok(path.clone()?),
        None => Ok(Bytes::new(alloc)),
    }
}

fn row_of(
    alloc: Global,
    paths: &[Bytes],
    finding: Finding,
    site: Site,
) -> Result<FindingRow, OutOfMemory>
    ensures { IfOk result (λ row. row ≡ spec.row_of paths.now finding site) }
{
    let fails = finding.fails();
    let path = path_at(alloc, paths, site.file)?;
    Ok(FindingRow {
        finding,
        path,
        line: site.line,
        fails,
    })
}

fn is_standing(finding: &Finding) -> bool
    ensures { result ≡ is_standing_code finding.now.key.code }
{
    finding.key.code == FindingCode::Standing
}

fn put_row(
    alloc: Global,
    paths: &[Bytes],
    finding: Finding,
    site: Site,
    rows: &mut Items<FindingRow>,
) -> Result<(), OutOfMemory>
    ensures { OnOk result (rows.new ≡ rows.old ++ spec.row_if paths.now finding site) }
{
    if !is_standing(&finding) {
        rows.push(row_of(alloc, paths, finding, site)?)?;
    }
    Ok(())
}

/// The rows of findings, but for those that say no more than that a promise is one of the project.
pub(crate) fn finding_rows(
    alloc: Global,
    paths: &[Bytes],
    apart: Apart,
) -> Result<Items<FindingRow>, OutOfMemory>
    ensures { IfOk result (λ rows. rows ≡ spec.joined_rows paths.now apart.findings.items apart.sites.items) }
{
    let Apart {
        mut findings,
        sites,
    } = apart;
    let mut rows = Items::new(alloc);
    findings.reverse();
    for site in sites.as_slice() {
        if let Some(finding) = findings.pop() {
            put_row(alloc, paths, finding, *site, &mut rows)?;
        }
    }
    Ok(rows)
}
