ghost use Rattle.std.specs.Prelude.{◌≡◌, IfOk, IfErr};
ghost use Rattle.bundle.specs.File.{file_of};
ghost use Rattle.project_files.specs.Trees.{IsReadAs};
ghost use Rattle.project_files.specs.Kept.{tree_file, refusal_for, IsRefusal};

use crate::error::FilesError;
use bundle::FileEntry;
use java_reader::{ReadError, read_file};
use java_tree::FileTree;
use std::alloc::Global;

/// A file with the tree that its text reads as.
#[derive(Drop)]
pub struct ReadFile<'a> {
    pub file: FileEntry<'a>,
    pub tree: FileTree,
}

// What is said of a file that isn't read.
fn refusal_for<'a>(path: &'a [u8], why: ReadError) -> FilesError<'a>
    ensures { result ≡ refusal_for path.entry why }
{
    match why {
        ReadError::OutOfMemory => FilesError::OutOfMemory,
        ReadError::Limit { .. } | ReadError::Lex { .. } | ReadError::Grammar { .. } => {
            FilesError::Unread(path, why)
        }
    }
}

/// Reads a file.
pub fn read_one<'a>(alloc: Global, file: FileEntry<'a>) -> Result<ReadFile<'a>, FilesError<'a>>
    ensures same { IfOk result (λ read. read.file ≡ file.entry) }
    ensures read { IfOk result (λ read. IsReadAs (tree_file read)) }
    ensures cause { IfErr result (IsRefusal (file_of file.entry)) }
{
    match read_file(alloc, file.text) {
        Ok(tree) => Ok(ReadFile { file, tree }),
        Err(why) => Err(refusal_for(file.path, why)),
    }
}
