//! Reading the expressions of the Java subset: which tokens spell which expression, and the reader for
//! them. It knows nothing of statements or files, nor of names and types.
#![tactic(auto)]

mod grammar;
mod laws;
mod operators;
mod reader;
mod tall;

pub use grammar::{expr, post_read};
pub use laws::one_expression;
pub use reader::{read_expr, read_post};
pub use tall::Tall;
