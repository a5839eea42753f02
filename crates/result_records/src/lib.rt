//! Findings, their keys and what they rest on, as plain data that contracts compare as what they
//! are, and how keys are written. It knows nothing of how a finding comes about or is judged.
#![tactic(auto)]

mod code;
mod finding;
mod put;
mod write;

pub use code::FindingCode;
pub use finding::{Alternative, Finding, FindingKey, FindingLink, VouchKey};
pub use put::Put;
pub use write::{key_text, promise_text, put_key, put_promise};
