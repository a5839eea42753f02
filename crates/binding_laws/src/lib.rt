//! The laws of binding: that what a unit is bound to rests on its own tree and on what its consulted names
//! show, and that these cover whatever an analysis may ask. It holds laws alone, and no code.
#![tactic(auto)]

mod laws;

pub use laws::{
    consulted_names_cover, declared_names_are_free, expressions_rest_on_what_they_tell,
    units_are_bound_alike,
};
