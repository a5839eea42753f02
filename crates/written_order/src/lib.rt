//! That findings and promises come in the order of what is written of them. The crate has laws alone: it
//! ties the orders by which code sorts to the bytes of written keys.
#![tactic(auto)]

mod laws;

pub use laws::{codes_come_as_written, promises_come_as_written};
