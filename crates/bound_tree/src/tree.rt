use crate::name::{FieldName, MemberName, ValueType};
use core_model::Op;
use desk_base::{Boxed, Bytes, Items, Name};

/// What stands with each expression: the number, within the unit and from 1, of the token that its
/// findings name (the name of an access or a call, the word `new`), the number of its first token,
/// its type, or none where it has no value or can't be used, whether it is faulty: a bind finding
/// stands at it or in it, or it uses what has an unknown type; and whether it is misplaced: a bind
/// finding stands at parentheses around it, so that what stands inside them is not faulty by that.
#[derive(Drop)]
pub struct Stamp {
    pub at: u32,
    pub first: u32,
    pub ty: Option<ValueType>,
    pub is_faulty: bool,
    pub is_misplaced: bool,
}

/// A local that is named, and the number of the token at which it is.
#[derive(Clone, Copy)]
pub struct Naming {
    pub at: u32,
    pub local: u32,
}

/// A literal. An int is at most 2147483648, and that only behind a minus.
#[derive(Drop)]
pub enum Literal {
    Int(u32),
    Boolean(bool),
    Null,
    Str(Bytes),
}

/// An operator on one value.
#[derive(Clone, Copy, Debug, PartialEq, Eq)]
pub enum UnaryOp {
    Not,
    Negate,
}

/// An expression. Parentheses leave no trace but the number of the first token. A bare name of a
/// field or method of the own class stands behind a `This` whose number is that of the name; a
/// static one behind nothing. Locals are numbered as in core code: `this` is 0 where there is one,
/// then come the parameters and the locals in written order.
#[derive(Drop)]
pub enum Expr {
    Const(Stamp, Literal),
    This(Stamp),
    Local(Stamp, u32),
    Field(Stamp, Boxed<Expr>, FieldName),
    Static(Stamp, FieldName),
    New(Stamp, Name, Items<Expr>),
    Call(Stamp, Boxed<Expr>, MemberName, Items<Expr>),
    CallStatic(Stamp, MemberName, Items<Expr>),
    /// A name, or a call by a name, that names nothing, or `this` where there is none.
    Unknown(Stamp, Name, Items<Expr>),
    /// A field that the base's type doesn't have.
    UnknownField(Stamp, Boxed<Expr>, Name),
    /// A method that the receiver's type doesn't have.
    UnknownCall(Stamp, Boxed<Expr>, Name, Items<Expr>),
    Unary(Stamp, UnaryOp, Boxed<Expr>),
    And(Stamp, Boxed<Expr>, Boxed<Expr>),
    Or(Stamp, Boxed<Expr>, Boxed<Expr>),
    Binary(Stamp, Op, Boxed<Expr>, Boxed<Expr>),
}

/// A statement. A `for` is a block of its first part and a `while` whose body ends with its last
/// part; a missing `else` is an empty block. A step is a compound assignment of 1. The target of an
/// assignment is a local, a field, a static field, or what names nothing.
#[derive(Drop)]
pub enum Stmt {
    Block(Items<Stmt>),
    /// The declaration of a local, with the number of its name's token, its own number and its type.
    Declare(u32, u32, ValueType, Expr),
    Assign(Expr, Expr),
    Compound(Expr, Op, Expr),
    /// A call or `new` whose value, if there is one, is dropped.
    Perform(Expr),
    /// The start of a thread, with the number of the word `new`.
    Start(u32, Expr),
    If(Expr, Boxed<Stmt>, Boxed<Stmt>),
    While(Expr, Boxed<Stmt>),
    Sync(Expr, Boxed<Stmt>),
    /// A block that holds the monitor of a class, with the number of its name.
    SyncClass(u32, Name, Boxed<Stmt>),
    Return(u32),
    ReturnValue(u32, Expr),
}
