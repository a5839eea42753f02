//! The findings of one unit, put together of its parts: that each of its promises is one of the project,
//! which of them are set aside and why, and what binding and the analyses found. A vouch in the source
//! stands for those that fail. It knows nothing of how its parts come about, nor of other units.
#![tactic(auto)]

mod list;
mod making;
mod promise;
mod unit;
mod vouch;

pub use list::into_vec;
pub use promise::UnitPromise;
pub use unit::unit_findings;
pub use vouch::{source_vouch, vouched};

#[cfg(test)]
mod tests;
