//! What is found and consulted of a header, and how all that is told of a unit becomes its bind findings
//! and its consulted names: what a view shows of types, where promise annotations begin, implemented
//! interfaces and assumptions. It knows trees, views and names, and nothing of bodies.
#![tactic(auto)]

mod annotations;
mod assumed;
mod consulted;
mod faults;
mod given;
mod headers;
mod implements;
mod shown;

pub use annotations::{header_begins, member_begins};
pub use consulted::consulted_names;
pub use faults::bind_findings;
pub use given::member_begun;
pub use headers::bind_header;
pub use shown::ViewTypes;
