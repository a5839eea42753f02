//! The rules of names and types: which types there are and what they show of themselves, which value
//! suits which place, what is in scope, and the bind finding of an expression that doesn't suit its
//! place. It knows types by a look-up, and nothing of how that is kept or of Java's trees.
#![tactic(auto)]

mod given;
mod note;
mod place;
mod scope;
mod types;
mod uses;

pub use given::{GivenType, given_type, is_boolean, is_int, value_type};
pub use note::{Note, put_call, put_finding, put_finding_if, put_name, put_params, put_type};
pub use place::{Place, misplaced};
pub use scope::{Entry, Meaning, Scope, Variable};
pub use types::{
    TypeTable, can_start, compares, has_monitor, implements, is_class, is_declared, is_interface,
    is_known, is_known_name, is_object, is_runnable, suits,
};
pub use uses::{Use, put_use, use_of};
