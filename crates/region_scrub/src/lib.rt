//! Which region declarations of a class stand: faulty ones are set aside, one after another, until
//! those that are left have no fault. It knows nothing of annotations nor of locks.
#![tactic(auto)]

mod chain_state;
mod fault;
mod index;
mod laws;
mod left;
mod make;
mod rooting;
mod scrubber;

pub use fault::RegionFault;
pub use laws::one_clearing;
pub use left::those_left;
pub use make::set_faulty_aside;
