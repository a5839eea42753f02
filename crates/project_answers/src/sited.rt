ghost use Rattle.std.specs.Prelude.{◌≡◌, IfOk, map};
ghost use Rattle.project_answers.specs.Lines as spec;

use crate::lines::LineCursor;
use desk_base::{Items, OutOfMemory};
use java_tree::Token;
use result_records::Finding;
use std::alloc::Global;
use unit_findings::into_vec;

/// Where a finding is: the number of its file, and the line, from 1.
#[derive(Clone, Copy)]
pub struct Site {
    pub file: u32,
    pub line: u32,
}

/// A finding with where it is.
#[derive(Drop)]
pub struct Sited {
    pub finding: Finding,
    pub site: Site,
}

/// The byte at which a token of a unit begins, by its number from 1.
fn start_at(tokens: &[Token], place: u32) -> u32
    ensures { result ≡ spec.start_at tokens.now place }
{
    let at = (place as usize).saturating_sub(1);
    match tokens.get(at) {
        Some(token) => token.span.start,
        None => 0,
    }
}

/// The findings of a unit, each with where it is. The lines are counted in one pass where units come in
/// the order in which they are written.
pub fn site_findings(
    alloc: Global,
    file: u32,
    lines: &mut LineCursor<'_>,
    tokens: &[Token],
    findings: Items<Finding>,
) -> Result<Vec<Sited>, OutOfMemory>
    ensures sited { IfOk result (λ sited. sited.items ≡ map (spec.sited file lines.old.text.now tokens.now) findings) }
    ensures same { lines.new.text.now ≡ lines.old.text.now }
{
    let mut sited = Vec::new(alloc);
    for finding in into_vec(alloc, findings)? {
        let line = lines.line_of(start_at(tokens, finding.place))?;
        let site = Site { file, line };
        sited.push(Sited { finding, site })?;
    }
    Ok(sited)
}
