//! Annotations whose elements are still being read. They are kept in a list and not on the stack, as
//! they may nest as deep as a file is long.

use desk_base::{Items, Span};
use java_tree::{AnnotLayer, Elem, InnerAnnot, Lexeme};

/// An annotation that is open, and its elements so far. Another one is to come.
#[derive(Drop)]
pub(crate) struct Frame {
    pub(crate) at: Span,
    pub(crate) name: Items<Lexeme>,
    pub(crate) opening: Span,
    pub(crate) value: Option<Lexeme>,
    pub(crate) in_braces: bool,
    pub(crate) elems: Items<Elem>,
}

/// What has been read last.
#[derive(Drop)]
pub(crate) enum Opened {
    Whole(AnnotLayer),
    Open(Frame),
}

/// What has been read last, the annotations round it, the innermost last, and those within these that
/// have ended.
#[derive(Drop)]
pub(crate) struct Nest {
    pub(crate) outer: Items<Frame>,
    pub(crate) ended: Items<InnerAnnot>,
    pub(crate) last: Opened,
}
