//! Views: the surfaces of a project's types by name, and what a class sees of each, with its own
//! assumptions beside the promises that stand. Each look-up goes by maps that are made once for a
//! surface. It knows surfaces, and nothing of trees, of the code of bodies, or of how a surface comes
//! about.
#![tactic(auto)]

mod contents;
mod entry;
mod firsts;
mod items;
mod kind;
mod laws;
mod promises;
mod regions;
mod shape;
mod surfaces;
mod unit_promises;
mod view;

pub use contents::{lock_content, region_content};
pub use kind::FaceKind;
pub use laws::surface_regions_stand;
pub use surfaces::{AddError, Surfaces};
pub use unit_promises::UnitPromises;
pub use view::{View, view_of};
