//! A project judged: its files read, the surfaces of their types, the findings of all their units, and
//! the answers on it; or the first cause why there are none. It knows nothing of how a bundle is written
//! nor of how answers are printed.
#![tactic(auto)]

mod answer;
mod error;
mod judging;
mod laws;
mod project;
mod sizes;
mod sound;
mod units;

pub use error::ProjectError;
pub use laws::answered_files_have_no_cause;
pub use project::judge_project;
