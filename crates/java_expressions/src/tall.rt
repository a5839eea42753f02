//! Trees beside the number of nodes on their longest path.

use desk_base::{Items, Span};
use java_tree::Expr;

/// An expression and its height: the number of nodes on its longest path.
#[derive(Drop)]
pub struct Tall {
    pub expr: Expr,
    pub height: usize,
}

/// Expressions of a list and the greatest of their heights.
#[derive(Drop)]
pub struct Listed {
    pub(crate) items: Items<Expr>,
    pub(crate) height: usize,
}

/// The same, in parentheses.
#[derive(Drop)]
pub struct Arguments {
    pub(crate) items: Items<Expr>,
    pub(crate) height: usize,
    pub(crate) closing: Span,
}
