//! The answers on a project, put together of the findings of its units: the findings of the project in
//! order, with their lines, the verdicts on its promises, and what they rest on or are blamed on. It
//! knows nothing of how findings come about, nor of how answers are printed.
#![tactic(auto)]

mod answers;
mod gather;
mod laws;
mod lines;
mod promises;
mod rows;
mod sited;
mod verdicts;

pub use answers::{Sizes, project_answers};
pub use gather::{UnitFound, project_findings};
pub use laws::{
    blames_are_rows, project_findings_are_among, project_findings_have_ways,
    unit_findings_are_among, unit_findings_have_ways,
};
pub use lines::LineCursor;
pub use promises::promise_list;
pub use sited::{Site, Sited, site_findings};
