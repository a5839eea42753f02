//! Bundles: the files of a project as one run of bytes, and the paths that files may have. It
//! knows nothing of what the files hold.
#![tactic(auto)]

mod bundle;
mod entry;
mod path;
mod unique;

pub use bundle::{BundleError, check_bundle, read_bundle};
pub use entry::{FileEntry, next_entry};
pub use path::is_good_path;
pub use unique::{one_bundle, one_fault};
