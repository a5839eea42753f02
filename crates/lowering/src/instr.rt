use core_model::Op;
use desk_base::{Bytes, Name};

/// By what a monitor is named: a local that is never assigned (`this` is local 0), a lock's field of
/// such a local with the class whose it is, a lock's static field, or a class.
#[derive(Drop)]
pub enum NamedClaim {
    Local(u32),
    Field(u32, Name, Name),
    Static(Name, Name),
    Class(Name),
}

/// What is known of an instruction besides its place: of a call the static class of its receiver, of
/// a field's read or write the class whose field it is, and of a monitor by what it was named, where
/// that is a claim.
#[derive(Drop)]
pub enum NamedKnown {
    Nothing,
    Class(Name),
    Monitor(NamedClaim),
}

/// What stands with each instruction: the number, within the unit, of the token that it comes from,
/// and what is known of it. No step looks at it.
#[derive(Drop)]
pub struct NamedNote {
    pub place: u32,
    pub known: NamedKnown,
}

/// A value that stands in the code.
#[derive(Drop)]
pub enum Constant {
    Int(i32),
    Boolean(bool),
    Null,
    Text(Bytes),
}

/// An instruction without code inside: those of core code, with names in the place of numbers. A
/// field that isn't static is that of the class in the note.
#[derive(Drop)]
pub enum NamedPlain {
    /// Push the value.
    Const(Constant),
    /// Push the local.
    Get(u32),
    /// Pop into the local.
    Set(u32),
    /// Pop.
    Drop,
    /// Pop a base and push its field.
    Field(Name),
    /// Push the field of the base on top, which stays beneath.
    FieldKeep(Name),
    /// Pop a value and a base, and write its field.
    PutField(Name),
    /// Push the static field of the class.
    Static(Name, Name),
    /// Pop into the static field of the class.
    PutStatic(Name, Name),
    /// Pop so many arguments and make an object of the class; its constructor's call pushes it.
    Make(Name, u32),
    /// Push a fresh Object.
    MakePlain,
    /// Pop so many arguments and a receiver, and begin the call of its class's member.
    Call(Name, u32),
    /// Pop so many arguments, and begin the call of the class's static member.
    CallStatic(Name, Name, u32),
    /// Pop two operands and push the result.
    Op(Op),
    /// Negate the int on top.
    Neg,
    /// Negate the boolean on top.
    Not,
    /// Pop a reference and start a thread that calls its `run`; null starts nothing.
    Start,
    /// Leave the call without a result.
    Return,
    /// Leave the call with the value on top.
    ReturnValue,
}
