//! The limits on what is judged of a project: how many promises, findings and links there may be. It
//! counts findings as they come, and knows nothing of how they come about.
#![tactic(auto)]

mod count;
mod tally;

pub use tally::Tally;
