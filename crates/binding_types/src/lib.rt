//! What is bound without findings is typed: bodies, and whole units. It knows what binds a unit and
//! what a typed unit is, and nothing of the numbers of a program.
#![tactic(auto)]

mod laws;

pub use laws::{bound_bodies_are_typed, bound_units_are_typed};
