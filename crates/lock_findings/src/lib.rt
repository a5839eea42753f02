//! The findings on locks of one unit: which reads, writes and calls want a lock that isn't held there,
//! what a method requires beyond its interface, and what a promise on a lock names that isn't there.
//! It knows bound trees and, by a trait, the promises on locks that stand; it knows nothing of text, of
//! binding, of how promises come about, of other promises or of verdicts.
#![tactic(auto)]

mod held;
mod judge;
mod lock;
mod own;
mod promises;
mod role;
mod row;
mod unit;
mod ways;

pub use judge::judge_unit;
pub use lock::{Base, Guard, Holder, LockName, Need};
pub use own::{Own, OwnNeed};
pub use promises::LockPromises;
pub use role::{Above, Role};
