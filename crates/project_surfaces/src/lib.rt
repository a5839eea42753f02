//! The surfaces of all types of a project's files by their names, the promises of these, and which file
//! has a type that isn't judged so far. It knows files as they are read and surfaces, and nothing of
//! binding or of findings.
#![tactic(auto)]

mod gather;
mod keys;

pub use gather::{ProjectSurfaces, project_surfaces};
