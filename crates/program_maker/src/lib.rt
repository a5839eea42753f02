//! Programs: what the bound units of a project's types become, with one numbering of names for all of
//! them. It knows bound units, surfaces and core code, and nothing of Java's text, of how a unit is
//! bound, of types, or of promises.
#![tactic(auto)]

mod classes;
mod maker;
mod naming;
mod numbering;
mod numbers;
mod units;

pub use maker::{ProgramMaker, program_of};
