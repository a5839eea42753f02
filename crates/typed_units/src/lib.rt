//! What a unit that is bound without findings is, by names: each expression has the type that is told
//! of it and suits its place, each name names what its class shows, each local is set before it is
//! named, and a body with a result comes to no end without one. It knows bound trees and what types
//! show of themselves, and nothing of what binds a unit, nor of the numbers of a program.
#![tactic(auto)]

mod laws;

pub use laws::typed_expressions_give_values;
