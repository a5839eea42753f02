use crate::token::Lexeme;
use desk_base::Span;
use sqlite_items::{Boxed, Items};

/// An operator between two operands (JLS 8, 15.17 to 15.24, as far as the subset goes).
#[derive(Clone, Copy, Debug, PartialEq, Eq)]
pub enum BinaryOp {
    Or,
    And,
    Equal,
    NotEqual,
    Less,
    Greater,
    AtMost,
    AtLeast,
    Add,
    Subtract,
    Multiply,
    Divide,
    Remainder,
}

/// An expression. A `Span` is that of the sign or word that it stands beside in the written order;
/// the last one of a call or `new` is that of its closing parenthesis.
#[derive(Drop)]
pub enum Expr {
    Int(Lexeme),
    Str(Lexeme),
    True(Span),
    False(Span),
    Null(Span),
    This(Span),
    Name(Lexeme),
    Call(Lexeme, Items<Expr>, Span),
    New(Span, Lexeme, Items<Expr>, Span),
    Paren(Span, Boxed<Expr>, Span),
    Select(Boxed<Expr>, Lexeme),
    CallOn(Boxed<Expr>, Lexeme, Items<Expr>, Span),
    Not(Span, Boxed<Expr>),
    Neg(Span, Boxed<Expr>),
    Binary(Boxed<Expr>, BinaryOp, Span, Boxed<Expr>),
}
