//! The promise annotations of a class: which there are, in written order, and the tree that each
//! one's content spells. It knows containers, qualified names and elements of annotations. It
//! doesn't know where a promise may stand nor what its names mean.
#![tactic(auto)]

mod given;
mod mark;
mod marks;

pub use mark::Mark;
pub use marks::{header_marks, member_marks};
