//! The contents of promise annotations: what each of the eleven kinds may say, as trees of typed
//! parts. It knows words, signs and Java's names. It doesn't know where a promise may stand, what
//! its names mean, or whether what they name is there.
#![tactic(auto)]

mod effects;
mod error;
mod kind;
mod layer;
mod lock;
mod mark;
mod member;
mod names;
mod pieces;
mod plain;
mod read;
mod region;
mod same;
mod scope;
mod shared;
mod split;
mod tree;
mod word;

pub use effects::{EffectTarget, EffectsContent};
pub use error::PromiseError;
pub use kind::PromiseKind;
pub use lock::{LockHolder, LockItem, RegionLockContent};
pub use mark::{BorrowedContent, UniqueContent};
pub use member::{MemberContent, MemberName};
pub use read::{one_tree, read_promise};
pub use region::{RegionContent, Visibility};
pub use scope::{NamePattern, ScopeContent};
pub use shared::Shared;
pub use tree::PromiseTree;
