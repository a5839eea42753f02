//! The order of the findings of one unit, and their numbers among those of one code and promise. It
//! knows findings as records, and nothing of how they come about.
#![tactic(auto)]

mod number;
mod order;

pub use number::put_in_order;
