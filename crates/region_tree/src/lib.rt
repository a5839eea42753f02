//! The regions of a class: which there are, which region a field is in, and which region is under
//! which. It knows nothing of Java's text nor of locks.
#![tactic(auto)]

mod chain_state;
mod check;
mod climb;
mod decl;
mod disjoint;
mod fault;
mod make;
mod names;
mod place;
mod tree;

pub use decl::{FieldPut, RegionDecl};
pub use disjoint::DisjointRegions;
pub use fault::RegionError;
pub use make::build;
pub use names::{find_parents, kind_of_number, number_names};
pub use tree::{RegionId, RegionTree};
