//! The rules for one promise annotation: what it may stand on, which members a scoped promise is for,
//! and the promises that it offers, each with the code of what it names. It knows one annotation at a
//! time, and nothing of those before it.
#![tactic(auto)]

mod context;
mod copy;
mod offer;
mod place;
mod scope;
mod target;

pub use context::Context;
pub use copy::copied;
pub use offer::{Offer, offers_of, param_name};
pub use place::{Site, SiteKind, TypeSort, first_code, header_site, place_code, site_of};
pub use scope::selects;
pub use target::least;
