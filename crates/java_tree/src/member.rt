use crate::stmt::Block;
use crate::token::{Lexeme, Token};
use desk_base::Span;
use sqlite_items::Items;

/// A type as it is written.
#[derive(Drop)]
pub enum Ty {
    Int(Span),
    Boolean(Span),
    Named(Lexeme),
}

/// A word among modifiers.
#[derive(Clone, Copy, Debug, PartialEq, Eq)]
pub enum ModWord {
    Public,
    Protected,
    Private,
    Static,
    Final,
    Abstract,
    Synchronized,
}

/// An annotation without those within it: its `@`, the names of its qualified name, and its elements.
#[derive(Drop)]
pub struct AnnotLayer {
    pub at: Span,
    pub name: Items<Lexeme>,
    pub elements: Elements,
}

/// The elements of an annotation.
#[derive(Drop)]
pub enum Elements {
    /// Nothing stands after the name.
    Bare,
    /// `()`
    Empty(Span, Span),
    /// One element in parentheses, with the word `value` before it where it is written.
    One(Span, Option<Lexeme>, Elem, Span),
    /// Elements in braces in parentheses, with the word `value` before them where it is written.
    Many(Span, Option<Lexeme>, Items<Elem>, Span),
}

/// One element of an annotation: a string as written, or an annotation, which is kept among the
/// inner ones of the outermost.
#[derive(Drop)]
pub enum Elem {
    Str(Lexeme),
    Annot,
}

/// An annotation that stands in another one.
#[derive(Drop)]
pub struct InnerAnnot {
    /// In how many annotations it stands, at least one.
    pub depth: usize,
    pub layer: AnnotLayer,
}

/// An annotation, and those within it, however deep, as one list in the order in which they end. So
/// those that are elements of the annotation itself are the inner ones of depth 1, in written order.
#[derive(Drop)]
pub struct Annot {
    pub layer: AnnotLayer,
    pub inner: Items<InnerAnnot>,
}

/// A modifier: an annotation or a word.
#[derive(Drop)]
pub enum Mod {
    Annot(Annot),
    Word(ModWord, Span),
}

/// A parameter.
#[derive(Drop)]
pub struct Param {
    pub mods: Items<Mod>,
    pub ty: Ty,
    pub name: Lexeme,
}

/// What a field is initialized with.
#[derive(Drop)]
pub enum Init {
    Int(Lexeme),
    /// `-` and a literal.
    MinusInt(Span, Lexeme),
    True(Span),
    False(Span),
    Null(Span),
    Str(Lexeme),
    /// `new Object()`
    NewObject(Span),
}

/// A field with its tokens.
#[derive(Drop)]
pub struct Field {
    pub mods: Items<Mod>,
    pub ty: Ty,
    pub name: Lexeme,
    pub init: Option<Init>,
    pub tokens: Items<Token>,
}

/// A method with its body. Its result is `None` for `void`.
#[derive(Drop)]
pub struct Method {
    pub mods: Items<Mod>,
    pub result: Option<Ty>,
    pub name: Lexeme,
    pub params: Items<Param>,
    pub throws: Items<Items<Lexeme>>,
    pub body: Block,
    pub tokens: Items<Token>,
}

/// A method of an interface.
#[derive(Drop)]
pub struct Sig {
    pub mods: Items<Mod>,
    pub result: Option<Ty>,
    pub name: Lexeme,
    pub params: Items<Param>,
    pub throws: Items<Items<Lexeme>>,
    pub tokens: Items<Token>,
}

/// A constructor with its body.
#[derive(Drop)]
pub struct Ctor {
    pub mods: Items<Mod>,
    pub name: Lexeme,
    pub params: Items<Param>,
    pub throws: Items<Items<Lexeme>>,
    pub body: Block,
    pub tokens: Items<Token>,
}

/// `public static void main(String[] ..)`
#[derive(Drop)]
pub struct Main {
    pub mods: Items<Mod>,
    pub name: Lexeme,
    pub final_word: Option<Span>,
    pub param: Lexeme,
    pub throws: Items<Items<Lexeme>>,
    pub body: Block,
    pub tokens: Items<Token>,
}

/// A member of a class or an interface.
#[derive(Drop)]
pub enum MemberTree {
    Field(Field),
    Method(Method),
    Sig(Sig),
    Ctor(Ctor),
    Main(Main),
}
