ghost use Rattle.std.specs.Prelude.{◌≡◌};
ghost use Rattle.project_judge.specs.FilesCause.{files_cause};

use desk_base::{Bytes, LimitName, Name, OutOfMemory};
use java_reader::ReadError;
use project_files::FilesError;
use std::alloc::AllocFailed;

/// Why a project isn't judged.
#[derive(Drop)]
pub enum ProjectError<'a> {
    /// The first limit that is passed, of files, file bytes and text bytes; or, where nothing else
    /// stands in the way of judging, of promises, findings and links.
    Limit(LimitName),
    /// The path of the first file, in order of paths, that isn't read, and why.
    Unread(&'a [u8], ReadError),
    /// The first type, in order of paths and of writing, whose name is used before: its name, the path of
    /// the earlier type, and its own.
    Repeated(Name, Bytes, Bytes),
    /// The path of the first file, in order of paths, that has a type which isn't judged so far.
    Unfit(&'a [u8]),
    /// The allocator had no memory. It may come at any moment.
    OutOfMemory,
}

impl From<OutOfMemory> for ProjectError<'_> {
    ghost use Rattle.project_judge.specs.declared.error.ProjectError.TheVariants.{OutOfMemory as NoMemory};

    ghost from_gives = { λ _ e. e ≡ NoMemory };

    fn from(_error: OutOfMemory) -> Self {
        ProjectError::OutOfMemory
    }
}

impl<T: Drop> From<AllocFailed<T>> for ProjectError<'_> {
    ghost use Rattle.project_judge.specs.declared.error.ProjectError.TheVariants.{OutOfMemory as NoMemory};

    ghost from_gives = { λ _ e. e ≡ NoMemory };

    fn from(_error: AllocFailed<T>) -> Self {
        ProjectError::OutOfMemory
    }
}

/// The same cause, of a project that is to be judged.
pub(crate) fn files_cause(error: FilesError<'_>) -> ProjectError<'_>
    ensures { result ≡ files_cause error.entry }
{
    match error {
        FilesError::Limit(which) => ProjectError::Limit(which),
        FilesError::Unread(path, why) => ProjectError::Unread(path, why),
        FilesError::Repeated(name, first, second) => ProjectError::Repeated(name, first, second),
        FilesError::OutOfMemory => ProjectError::OutOfMemory,
    }
}
