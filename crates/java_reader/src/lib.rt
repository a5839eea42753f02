//! Reading whole Java files of the subset: which tokens spell which file, the reader for it, and the exact
//! place of each refusal. It is the public face of reading, and knows nothing of names and types.
#![tactic(auto)]

mod draft;
mod error;
mod file;
mod laws;
mod line;
mod reach;
mod reader;

pub use error::ReadError;
pub use laws::{one_spelling, one_tree, parts_follow};
pub use line::line_of;
pub use reach::furthest;
pub use reader::read_file;
