ghost use Rattle.std.specs.Prelude.{◌≡◌, All, IfOk, map, vec_len};
ghost use Rattle.project_answers.specs.Answered.{AreAnswers};
ghost use Rattle.project_answers.specs.Gathered.{project_findings};
ghost use Rattle.project_answers.specs.Laws.{IsBlamedByRow};
ghost use Rattle.project_answers.specs.Promises.{promise_list};
ghost use Rattle.project_files.specs.Kept.{tree_file};
ghost use Rattle.project_judge.specs.Sizes.{paths_of, sizes_with};

use crate::sizes::{paths_of, sizes_of};
use crate::sound::{are_among, are_apart, have_ways};
use desk_base::{Bytes, OutOfMemory, PromiseKey};
use project_answers::{
    Sited, Sizes, UnitFound, blames_are_rows, project_answers, project_findings, promise_list,
};
use project_files::ReadFile;
use report::Answers;
use std::alloc::Global;

// The answers on a project of these sizes, paths, promises and findings.
fn answers_on(
    alloc: Global,
    sizes: Sizes,
    paths: &[Bytes],
    promises: &[PromiseKey],
    found: Vec<Sited>,
) -> Result<Answers, OutOfMemory>
    ensures answers { IfOk result (AreAnswers sizes paths.now promises.now found.items) }
    ensures blamed { IfOk result (λ answers. All (IsBlamedByRow answers.findings) answers.verdicts) }
{
    blames_are_rows();
    if !are_apart(promises)
        || !are_among(promises, found.as_slice())
        || !have_ways(found.as_slice())
    {
        return Err(OutOfMemory);
    }
    project_answers(alloc, sizes, paths, promises, found)
}

/// The answers on files with these keys of promises and these units.
pub(crate) fn answer(
    alloc: Global,
    read: &[ReadFile<'_>],
    keys: Vec<PromiseKey>,
    units: Vec<UnitFound>,
) -> Result<Answers, OutOfMemory>
    ensures answers { IfOk result (AreAnswers (sizes_with (map tree_file read.now) (vec_len units)) (paths_of (map tree_file read.now)) (promise_list keys.items) (project_findings units.items)) }
    ensures blamed { IfOk result (λ answers. All (IsBlamedByRow answers.findings) answers.verdicts) }
{
    let sizes = sizes_of(read, units.len())?;
    let paths = paths_of(alloc, read)?;
    let promises = promise_list(alloc, keys)?;
    let found = project_findings(alloc, units)?;
    answers_on(alloc, sizes, paths.as_slice(), promises.as_slice(), found)
}
