ghost use Rattle.std.specs.Prelude.{IfOk, map};
ghost use Rattle.consistency.specs.Among.{FindingsAmong};
ghost use Rattle.consistency.specs.Keys.{Distinct};
ghost use Rattle.consistency.specs.Verdicts.{VerdictsOf};
ghost use Rattle.project_answers.specs.Answered as spec;
ghost use Rattle.project_answers.specs.Gathered.{finding_of};

use crate::rows::{finding_rows, take_apart};
use crate::sited::Sited;
use crate::verdicts::verdict_rows;
use consistency::{Verdicts, graph_of, solve};
use desk_base::{Bytes, OutOfMemory, PromiseKey};
use report::Answers;
use result_records::Finding;
use std::alloc::Global;

/// How many files, types and units a project has.
#[derive(Clone, Copy)]
pub struct Sizes {
    pub files: u32,
    pub types: u32,
    pub units: u32,
}

fn solved(
    alloc: Global,
    promises: &[PromiseKey],
    findings: &[Finding],
) -> Result<Verdicts, OutOfMemory>
    requires distinct { Distinct promises.now }
    requires among { FindingsAmong promises.now findings.now }
    ensures { IfOk result (λ v. VerdictsOf promises.now findings.now v) }
{
    let graph = graph_of(alloc, promises, findings)?;
    solve(alloc, &graph)
}

/// The answers on a project. `promises` are its promises, `Program` first, each once; `found` are its
/// findings in order; `paths` are the paths of its files by their numbers.
pub fn project_answers(
    alloc: Global,
    sizes: Sizes,
    paths: &[Bytes],
    promises: &[PromiseKey],
    found: Vec<Sited>,
) -> Result<Answers, OutOfMemory>
    requires distinct { Distinct promises.now }
    requires among { FindingsAmong promises.now (map finding_of found.items) }
    ensures { IfOk result (spec.AreAnswers sizes paths.now promises.now found.items) }
{
    let apart = take_apart(alloc, found)?;
    let verdicts = solved(alloc, promises, apart.findings.as_slice())?;
    let findings = finding_rows(alloc, paths, apart)?;
    let verdicts = verdict_rows(alloc, &verdicts, promises)?;
    Ok(Answers {
        files: sizes.files,
        types: sizes.types,
        units: sizes.units,
        findings,
        verdicts,
    })
}
