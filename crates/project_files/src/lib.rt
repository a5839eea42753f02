//! The files of a bundle as one project: their limits, what they read as, and names that are used twice.
//! It knows nothing of how a bundle is written, nor of what is judged of a project.
#![tactic(auto)]

mod error;
mod laws;
mod limits;
mod order;
mod project;
mod reading;
mod repeats;

pub use error::FilesError;
pub use laws::{one_project, projects_have_no_cause};
pub use project::read_project;
pub use reading::ReadFile;
