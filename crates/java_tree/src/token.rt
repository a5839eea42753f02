use crate::kind::Kind;
use desk_base::{Bytes, Name, Span};

/// A token of a file: its kind, its bytes as written and where they stand.
#[derive(Drop)]
pub struct Token {
    pub kind: Kind,
    pub bytes: Bytes,
    pub span: Span,
}

/// A name or a literal of a tree: the token's text as written and where it stands.
#[derive(Drop)]
pub struct Lexeme {
    pub text: Name,
    pub span: Span,
}
