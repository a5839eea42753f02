ghost use Rattle.std.specs.Prelude.{◌≡◌, ◌-◌, ◌^◌, min, length, nat_lt};
ghost use Rattle.std.specs.List.{list_any, sum_by};
ghost use Rattle.desk_base.specs.Limit.{limit_max};
ghost use Rattle.project_files.specs.Limits.{passed_limit};
ghost use Rattle.project_files.specs.Kept.{files_of};

use bundle::FileEntry;
use desk_base::LimitName;

fn has_long_file(files: &[FileEntry<'_>]) -> bool
    ensures { result ≡ list_any (λ f. nat_lt (limit_max LimitName.FileBytes) (length f.text.now)) files.now }
{
    files
        .iter()
        .any(|file| file.text.len() as u64 > LimitName::FileBytes.max())
}

// The bytes of all texts together, or the greatest number where they are more.
fn text_bytes(files: &[FileEntry<'_>]) -> u64
    ensures { result ≡ min (sum_by (λ f. length f.text.now) files.now) (2 ^ 64 - 1) }
{
    let mut total = 0u64;
    for file in files {
        total = total.saturating_add(file.text.len() as u64);
    }
    total
}

/// The first limit that the files pass, of files, file bytes and text bytes.
pub fn passed_limit(files: &[FileEntry<'_>]) -> Option<LimitName>
    ensures { result ≡ passed_limit (files_of files.now) }
{
    if files.len() as u64 > LimitName::Files.max() {
        Some(LimitName::Files)
    } else if has_long_file(files) {
        Some(LimitName::FileBytes)
    } else if text_bytes(files) > LimitName::TextBytes.max() {
        Some(LimitName::TextBytes)
    } else {
        None
    }
}
