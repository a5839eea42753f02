use crate::member::{MemberTree, Mod};
use crate::token::{Lexeme, Token};
use desk_base::Span;
use sqlite_items::Items;

/// The package line: the names of its qualified name.
#[derive(Drop)]
pub struct Package {
    pub name: Items<Lexeme>,
}

/// An import line: its word `static`, if it is written, the names, and the `*`, if it is written.
#[derive(Drop)]
pub struct Import {
    pub static_word: Option<Span>,
    pub name: Items<Lexeme>,
    pub star: Option<Span>,
}

/// What a type is declared as.
#[derive(Clone, Copy, Debug, PartialEq, Eq)]
pub enum TypeKind {
    Class,
    Interface,
}

/// A class or an interface. Its tokens are those of its header, without the `{`.
#[derive(Drop)]
pub struct ClassTree {
    pub mods: Items<Mod>,
    pub kind: TypeKind,
    pub name: Lexeme,
    pub implements: Items<Lexeme>,
    pub members: Items<MemberTree>,
    pub tokens: Items<Token>,
}

/// A whole file.
#[derive(Drop)]
pub struct FileTree {
    pub package: Option<Package>,
    pub imports: Items<Import>,
    pub types: Items<ClassTree>,
}
