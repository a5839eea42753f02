ghost use Rattle.std.specs.Prelude.{◌≡◌, IfOk, IfErr, map};
ghost use Rattle.project_files.specs.Trees.{types_of};
ghost use Rattle.project_files.specs.Kept.{files_of, tree_file, AreReadTo, IsRefusalIn, RepeatOf};
ghost use Rattle.project_files.specs.Project.{AreProject, IsCauseOf};

use crate::error::FilesError;
use crate::limits::passed_limit;
use crate::order::in_order;
use crate::reading::{ReadFile, read_one};
use crate::repeats::{Repeat, TypeNames};
use bundle::FileEntry;
use desk_base::{Bytes, OutOfMemory};
use std::alloc::Global;

// The files, read one after another, up to the first that isn't read.
fn read_all<'a>(
    alloc: Global,
    sorted: &[FileEntry<'a>],
) -> Result<Vec<ReadFile<'a>>, FilesError<'a>>
    ensures read { IfOk result (λ read. AreReadTo (files_of sorted.now) read.items) }
    ensures cause { IfErr result (IsRefusalIn (files_of sorted.now)) }
{
    let mut read = Vec::new(alloc);
    for file in sorted {
        let one = read_one(alloc, *file)?;
        read.push(one)?;
    }
    Ok(read)
}

// The first type whose name is used before.
fn repeat_of<'a>(alloc: Global, read: &[ReadFile<'a>]) -> Result<Option<Repeat<'a>>, OutOfMemory>
    ensures { IfOk result (RepeatOf (types_of (map tree_file read.now))) }
{
    let mut names = TypeNames::new(alloc);
    for file in read {
        names.add_types(file)?;
    }
    Ok(names.into_repeat())
}

// What is said of a name that is used twice.
fn repeated<'a>(alloc: Global, repeat: Repeat<'_>) -> Result<FilesError<'a>, OutOfMemory>
    ensures { IfOk result (λ error. error ≡ FilesError.Repeated repeat.entry.name repeat.entry.first.now repeat.entry.second.now) }
{
    let first = Bytes::from_slice(alloc, repeat.first)?;
    let second = Bytes::from_slice(alloc, repeat.second)?;
    Ok(FilesError::Repeated(repeat.name, first, second))
}

/// Reads files, in any order, as one project: each with its tree, in the order of their paths. Or the
/// first cause why they are none, of a limit of files or bytes, a file that isn't read, and a name that
/// is used twice.
pub fn read_project<'a>(
    alloc: Global,
    files: &[FileEntry<'a>],
) -> Result<Vec<ReadFile<'a>>, FilesError<'a>>
    ensures project { IfOk result (λ read. AreProject (files_of files.now) (map tree_file read.items)) }
    ensures cause { IfErr result (IsCauseOf (files_of files.now)) }
{
    if let Some(limit) = passed_limit(files) {
        return Err(FilesError::Limit(limit));
    }
    let sorted = in_order(alloc, files)?;
    let read = read_all(alloc, sorted.as_slice())?;
    if let Some(repeat) = repeat_of(alloc, read.as_slice())? {
        return Err(repeated(alloc, repeat)?);
    }
    Ok(read)
}
