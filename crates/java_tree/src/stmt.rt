use crate::expr::Expr;
use crate::member::Ty;
use crate::token::Lexeme;
use desk_base::Span;
use sqlite_items::{Boxed, Items};

/// The sign of an assignment.
#[derive(Clone, Copy, Debug, PartialEq, Eq)]
pub enum AssignOp {
    Set,
    Add,
    Subtract,
}

/// `++` or `--`.
#[derive(Clone, Copy, Debug, PartialEq, Eq)]
pub enum StepOp {
    Increment,
    Decrement,
}

/// What may stand before a semicolon, or in a part of a `for`. The target of an assignment or step
/// is a name or a selection; a call's expression is a call, that of `New` a `new`.
#[derive(Drop)]
pub enum Action {
    Assign(Expr, AssignOp, Span, Expr),
    StepAfter(Expr, StepOp, Span),
    StepBefore(Span, StepOp, Expr),
    Call(Expr),
    New(Expr),
    /// `new Thread(e).start()`: the word `new`, what is started, and the last parenthesis.
    Start(Span, Expr, Span),
}

/// A local's declaration: its word `final`, if it is written, its type, name and initializer.
#[derive(Drop)]
pub struct Local {
    pub final_word: Option<Span>,
    pub ty: Ty,
    pub name: Lexeme,
    pub value: Expr,
}

/// The first part of a `for`.
#[derive(Drop)]
pub enum ForFirst {
    Nothing,
    Local(Local),
    Action(Action),
}

/// What a `synchronized` statement locks: an expression's object, or a class.
#[derive(Drop)]
pub enum Monitor {
    Expr(Expr),
    Class(Lexeme, Span),
}

/// The statements between two braces.
#[cycle(statements)]
#[derive(Drop)]
pub struct Block {
    pub opening: Span,
    pub items: Items<BlockItem>,
    pub closing: Span,
}

/// A local with its semicolon, or a statement.
#[cycle(statements)]
#[derive(Drop)]
pub enum BlockItem {
    Local(Local, Span),
    Stmt(Stmt),
}

/// A statement. A `Span` is that of the word or sign that it stands beside in the written order.
#[cycle(statements)]
#[derive(Drop)]
pub enum Stmt {
    Block(Block),
    Empty(Span),
    Action(Action, Span),
    If(Span, Expr, Boxed<Stmt>, Option<Boxed<Stmt>>),
    While(Span, Expr, Boxed<Stmt>),
    For(Span, ForFirst, Option<Expr>, Option<Action>, Boxed<Stmt>),
    Sync(Span, Monitor, Block),
    Return(Span, Option<Expr>, Span),
}
