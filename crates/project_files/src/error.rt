use desk_base::{Bytes, LimitName, Name, OutOfMemory};
use java_reader::ReadError;
use std::alloc::AllocFailed;

/// Why files are no project.
#[derive(Drop)]
pub enum FilesError<'a> {
    /// The first limit that is passed, of files, file bytes and text bytes.
    Limit(LimitName),
    /// The path of the first file, in order of paths, that isn't read, and why.
    Unread(&'a [u8], ReadError),
    /// The first type, in order of paths and of writing, whose name is used before: its name, the path of
    /// the earlier type, and its own.
    Repeated(Name, Bytes, Bytes),
    /// The allocator had no memory. It may come at any moment.
    OutOfMemory,
}

impl From<OutOfMemory> for FilesError<'_> {
    ghost use Rattle.std.specs.Prelude.{◌≡◌};
    ghost use Rattle.project_files.specs.declared.error.FilesError.TheVariants.{OutOfMemory as NoMemory};

    ghost from_gives = { λ _ e. e ≡ NoMemory };

    fn from(_error: OutOfMemory) -> Self {
        FilesError::OutOfMemory
    }
}

impl<T: Drop> From<AllocFailed<T>> for FilesError<'_> {
    ghost use Rattle.std.specs.Prelude.{◌≡◌};
    ghost use Rattle.project_files.specs.declared.error.FilesError.TheVariants.{OutOfMemory as NoMemory};

    ghost from_gives = { λ _ e. e ≡ NoMemory };

    fn from(_error: AllocFailed<T>) -> Self {
        FilesError::OutOfMemory
    }
}
