//! A bound unit, as the analyses and what stands above them take it: its tree, its code with the places
//! of its steps, its bind findings, and the names of types that it consults; which methods of
//! interfaces it implements; and what an analysis owes. It knows nothing of text, of how a unit is
//! bound, or of any one analysis.
#![tactic(auto)]

mod analysis;
mod interfaces;
mod key;
mod names;
mod unit;

pub use analysis::Analysis;
pub use interfaces::{Above, implemented, same_shape};
pub use key::member_key;
pub use names::{put_member_names, put_tree_names};
pub use unit::BoundUnit;
