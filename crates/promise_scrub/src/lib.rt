//! Surfaces: what a class says to the others. From one class's tree alone it makes its kind, names,
//! fields, members and regions, the promises that stand after scoped ones are spread, those set
//! aside with the rule that they break, its assumptions and its vouched units. It knows nothing of
//! other classes, of places in the file, or of the code of a body but which names it assigns to.
#![tactic(auto)]

mod assume;
mod found;
mod gather;
mod judge;
mod laws;
mod listed;
mod member;
mod scrub;
mod spread;
mod surface;
mod tags;
mod texts;
mod unit;

pub use class_faces::{
    FaceTy, FieldFace, MemberFace, ParamFace, keys_differ, keys_tell_classes, member_key,
};
pub use laws::{
    listed_is_set_aside, lock_fields_fit, lock_regions_apart, one_surface, promise_keys_differ,
    regions_build, set_aside_is_listed, standing_keys_differ, surfaces_alike,
};
pub use region_tree::RegionDecl;
pub use scrub::surface_of;
pub use surface::{Aside, Assumption, Standing, Surface};
