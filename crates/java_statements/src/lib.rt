//! Reading the statements of the Java subset: which tokens spell which block, and the reader for
//! them. It knows nothing of members or files, nor of names and types.
#![tactic(auto)]

mod actions;
mod drops;
mod head;
mod laws;
mod locals;
mod reader;
mod statements;

pub use laws::one_block;
pub use reader::read_block;
