//! The findings of a bound unit, whole: that each of its promises is one of the project, what is set
//! aside, what binding found, and what the analyses find under the view of its class. It knows bound
//! units and views, and nothing of text, of how a unit is bound, or of other units.
#![tactic(auto)]

mod copies;
mod judge;
mod promises;

pub use judge::judge_bound;
