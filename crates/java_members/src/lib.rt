//! Reading the members of a class: fields, methods, constructors and `main`, each by its heading and
//! its body. It knows nothing of whole files, nor of names and types.
#![tactic(auto)]

mod body;
mod laws;
mod reader;

pub use laws::one_member;
pub use reader::read_member;
