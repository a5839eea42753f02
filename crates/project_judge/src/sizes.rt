ghost use Rattle.std.specs.Prelude.{◌≡◌, ◌+◌, ◌++◌, IfOk, length, map};
ghost use Rattle.project_files.specs.Kept.{tree_file};
ghost use Rattle.project_files.specs.Trees.{types_of};
ghost use Rattle.project_judge.specs.Sizes as spec;

use desk_base::{Bytes, OutOfMemory};
use project_answers::Sizes;
use project_files::ReadFile;
use std::alloc::Global;

/// A count as an answer has it; one of 2^32 is more than memory has room for.
pub(crate) fn counted(count: usize) -> Result<u32, OutOfMemory>
    ensures { IfOk result (λ number. number ≡ count) }
{
    u32::try_from(count).map_err(|_| OutOfMemory)
}

fn type_count(read: &[ReadFile<'_>]) -> Result<u32, OutOfMemory>
    ensures { IfOk result (λ count. count ≡ length (types_of (map tree_file read.now))) }
{
    let mut count = 0u32;
    for file in read {
        let more = counted(file.tree.types.len())?;
        count = count.checked_add(more).ok_or(OutOfMemory)?;
    }
    Ok(count)
}

/// How many files, types and units there are.
pub(crate) fn sizes_of(read: &[ReadFile<'_>], units: usize) -> Result<Sizes, OutOfMemory>
    ensures { IfOk result (λ sizes. sizes ≡ spec.sizes_with (map tree_file read.now) units) }
{
    let files = counted(read.len())?;
    let types = type_count(read)?;
    let units = counted(units)?;
    Ok(Sizes {
        files,
        types,
        units,
    })
}

/// The paths of files, by their numbers.
pub(crate) fn paths_of(alloc: Global, read: &[ReadFile<'_>]) -> Result<Vec<Bytes>, OutOfMemory>
    ensures { IfOk result (λ paths. paths.items ≡ spec.paths_of (map tree_file read.now)) }
{
    let mut paths = Vec::new(alloc);
    for file in read {
        paths.push(Bytes::from_slice(alloc, file.file.path)?)?;
    }
    Ok(paths)
}
