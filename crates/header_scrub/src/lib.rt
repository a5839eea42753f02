//! The header of a class: which of its regions and locks stand, and the codes of its annotations. It
//! knows nothing of members, of other classes, or of what stands but regions and locks.
#![tactic(auto)]

mod fields;
mod header;
mod kinds;
mod laws;
mod lock;
mod locks;
mod regions;
mod table;

pub use header::{ScrubbedHeader, scrub_header};
pub use laws::{lock_fields_fit, lock_regions_apart, regions_stand};
pub use lock::Lock;
