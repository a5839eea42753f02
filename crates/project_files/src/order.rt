ghost use Rattle.std.specs.Prelude.{IfOk};
ghost use Rattle.project_files.specs.Order.{InOrder};
ghost use Rattle.project_files.specs.Kept.{files_of};

use bundle::FileEntry;
use desk_base::OutOfMemory;
use std::alloc::Global;

/// The files in the order of their paths.
pub fn in_order<'a>(
    alloc: Global,
    files: &[FileEntry<'a>],
) -> Result<Vec<FileEntry<'a>>, OutOfMemory>
    ensures { IfOk result (λ sorted. InOrder (files_of files.now) (files_of sorted.items)) }
{
    let mut sorted = Vec::from_slice(alloc, files)?;
    sorted.sort_unstable_by(|a, b| a.path.cmp(b.path));
    Ok(sorted)
}
