//! The answers of a whole project, and the report that prints them, byte for byte. It knows nothing
//! of how findings and verdicts come about.
#![tactic(auto)]

mod answers;
mod counts;
mod finding_lines;
mod text;
mod verdict_lines;

pub use answers::{Answers, FindingRow, VerdictRow};
pub use text::report_text;
pub use verdict_lines::verdict_line;
