use crate::name::ValueType;
use crate::tree::Stmt;
use desk_base::{Bytes, Items, Name};

/// A name with the number of its token.
#[derive(Drop)]
pub struct Word {
    pub at: u32,
    pub name: Name,
}

/// A parameter with the number of its name's token.
#[derive(Drop)]
pub struct Variable {
    pub at: u32,
    pub name: Name,
    pub ty: ValueType,
}

/// The value that a field begins with; of one without initializer that of its type (JLS 8, 4.12.5).
#[derive(Drop)]
pub enum Initial {
    Int(i32),
    Boolean(bool),
    Null,
    Str(Bytes),
    FreshObject,
}

/// The parts of a unit that has code. A constructor's name is `new`. In a unit that isn't static
/// `this` is local 0; the parameters follow. The parameter of a main is local 0 and isn't listed,
/// since no name of its body names it.
#[derive(Drop)]
pub struct Body {
    pub name: Name,
    pub is_static: bool,
    pub is_synchronized: bool,
    pub params: Items<Variable>,
    pub result: Option<ValueType>,
    pub block: Stmt,
}

/// What a unit is: a header with the names that it implements, a field with its type and initial
/// value, an interface's method with its parameters and result, or a unit with code.
#[derive(Drop)]
pub enum Part {
    Header(Items<Word>),
    Field(ValueType, Initial),
    Sig(Items<Variable>, Option<ValueType>),
    Body(Body),
}

/// The bound tree of a unit: the class whose it is; the number of the `@` of each promise annotation
/// that is written at it, in the order in which they are numbered, whether it stands or is set
/// aside; for each promise that stands at the unit, in the order of its class's surface, the number
/// of the `@` of the annotation that gives it, 1 where it was spread; and the unit's parts. Numbers
/// of tokens are those within the unit, from 1.
#[derive(Drop)]
pub struct BoundTree {
    pub class: Name,
    pub annotations: Items<u32>,
    pub standing: Items<u32>,
    pub part: Part,
}
