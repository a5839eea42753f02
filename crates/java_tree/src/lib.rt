//! Tokens and trees of the Java subset, as plain data that contracts compare as what they are. It
//! knows nothing of how a text is read.
#![tactic(auto)]

mod expr;
mod file;
mod kind;
mod member;
mod stmt;
mod token;

pub use expr::{BinaryOp, Expr};
pub use file::{ClassTree, FileTree, Import, Package, TypeKind};
pub use kind::Kind;
pub use member::{
    Annot, AnnotLayer, Ctor, Elem, Elements, Field, Init, InnerAnnot, Main, MemberTree, Method,
    Mod, ModWord, Param, Sig, Ty,
};
pub use stmt::{Action, AssignOp, Block, BlockItem, ForFirst, Local, Monitor, StepOp, Stmt};
pub use token::{Lexeme, Token};
