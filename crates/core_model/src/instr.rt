use crate::value::Value;

/// The number of a declared class or interface, in the order of their names. Its holder is the
/// object of that number.
pub type ClassId = u32;

/// The number of a field among those of its object, in written order: the static fields of its type
/// in a holder, the others in an object made of a class.
pub type FieldId = u32;

/// The number of a member's name among the names of the program's members.
pub type MemberId = u32;

/// The number of a unit among those of the program.
pub type UnitId = u32;

/// By what a monitor was named: a local (`this` is local 0), a field of a local, a static field, or a
/// class.
#[derive(Clone, Copy, Debug, PartialEq, Eq)]
pub enum Claim {
    Local(u32),
    Field(u32, FieldId),
    Static(ClassId, FieldId),
    Class(ClassId),
}

/// What is known of an instruction besides its place: of a call the static class of its receiver, of
/// a field's read or write the class whose field it is, and of a monitor by what it was named, where
/// that is a claim.
#[derive(Clone, Copy, Debug, PartialEq, Eq)]
pub enum Known {
    Nothing,
    Class(ClassId),
    Monitor(Claim),
}

/// What the binder knows of an instruction. No step looks at it. The place is a number within the
/// unit.
#[derive(Clone, Copy, Debug, PartialEq, Eq)]
pub struct Note {
    pub place: u32,
    pub known: Known,
}

/// An operator on two values (JLS 8, 15.17, 15.18, 15.20 and 15.21).
#[derive(Clone, Copy, Debug, PartialEq, Eq)]
pub enum Op {
    Add,
    Subtract,
    Multiply,
    Divide,
    Remainder,
    Less,
    Greater,
    AtMost,
    AtLeast,
    Equal,
    NotEqual,
}

/// An instruction without code inside.
#[derive(Clone, Copy, Debug, PartialEq, Eq)]
pub enum Plain {
    /// Push the value.
    Const(Value),
    /// Push the local.
    Get(u32),
    /// Pop into the local.
    Set(u32),
    /// Pop.
    Drop,
    /// Pop a base and push its field.
    Field(FieldId),
    /// Push the field of the base on top, which stays beneath.
    FieldKeep(FieldId),
    /// Pop a value and a base, and write its field.
    PutField(FieldId),
    /// Push the static field of the class.
    Static(ClassId, FieldId),
    /// Pop into the static field of the class.
    PutStatic(ClassId, FieldId),
    /// Pop so many arguments and make an object of the class; its constructor's call pushes it.
    Make(ClassId, u32),
    /// Push a fresh Object.
    MakePlain,
    /// Pop so many arguments and a receiver, and begin the call of its class's member.
    Call(MemberId, u32),
    /// Pop so many arguments, and begin the call of the class's static member.
    CallStatic(ClassId, MemberId, u32),
    /// Pop two operands and push the result.
    Op(Op),
    /// Negate the int on top.
    Neg,
    /// Negate the boolean on top.
    Not,
    /// Pop a reference and start a thread that calls its `run`; null starts nothing.
    Start,
    /// Leave the call without a result.
    Return,
    /// Leave the call with the value on top.
    ReturnValue,
}
