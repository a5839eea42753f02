//! Bound trees: a unit of a class with what each of its names names and the type of each expression,
//! and what the analyses ask of it: its places with the monitors around them, and the flow of its
//! locals. It knows nothing of Java's text, of promises, or of other classes beyond the names and
//! facts that stand in the tree; what makes a tree stands above it.
#![tactic(auto)]

mod assigned;
mod claim;
mod clean_flow;
mod flow;
mod laws;
mod name;
mod parts;
mod passes;
mod place;
mod places;
mod tree;
mod unit;
mod way;

pub use assigned::assigned_table;
pub use claim::{Claim, claim_of, local_claim};
pub use clean_flow::is_clean;
pub use flow::{put_expr, put_stmt};
pub use laws::{claims_run_along, passes_tell_runs};
pub use name::{FieldName, MemberName, ValueType};
pub use parts::{base_of, is_bad, local_of, stamp_of};
pub use passes::{live, named_later, spent, spent_before};
pub use place::{Goal, Owner, Phrase, Seen, What};
pub use places::seen_places;
pub use tree::{Expr, Literal, Naming, Stamp, Stmt, UnaryOp};
pub use unit::{Body, BoundTree, Initial, Part, Variable, Word};
pub use way::{Way, no_ways};
