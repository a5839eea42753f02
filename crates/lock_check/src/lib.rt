//! The check of locks: what the promises on locks say in a unit under a view, and the findings on them in
//! their order. It knows bound units and views, and which promises say something of locks; it knows
//! nothing of text, of binding, of how a surface comes about, of other promises or of verdicts.
#![tactic(auto)]

mod check;
mod locks;
mod needs;
mod owned;
mod owner;
mod roles;
mod shown;
mod under;

pub use check::LockCheck;
pub use under::field_is_under;
