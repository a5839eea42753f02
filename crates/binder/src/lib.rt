//! The units of a class, bound under its view: headers, fields, methods, interface methods, constructors
//! and mains, each with what its names name, the types of its expressions, its bind findings and the
//! names that it consults. It puts together what the layers below say of the parts of a unit, and knows
//! nothing of analyses, projects or text.
#![tactic(auto)]

mod code;
mod laws;
mod member;
mod params;
mod part;
mod unit;

pub use laws::one_bound_unit;
pub use unit::{bind_keyed, bind_unit};
