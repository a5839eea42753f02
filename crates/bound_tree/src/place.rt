use crate::claim::Claim;
use crate::name::{FieldName, MemberName};
use crate::tree::Expr;
use desk_base::Name;

/// Whose field or method it is: that of a value, or of its class.
#[derive(Clone, Copy)]
pub enum Owner<'a> {
    Of(&'a Expr),
    OfClass,
}

/// Where a value goes: into a field, a local, the receiver or an argument (by its number from 0) of
/// a method, an argument of a constructor, a name that names nothing, the unit's result, or a thread.
#[derive(Clone, Copy)]
pub enum Goal<'a> {
    ToField(&'a FieldName),
    ToLocal(u32),
    ToReceiver(&'a MemberName),
    ToArgument(&'a MemberName, usize),
    ToConstructor(&'a Name, usize),
    ToNothing(&'a [u8]),
    ToResult,
    ToThread,
}

/// What is done at a place: a field is read or written, a method is called, an object of a class is
/// made, a thread is started, a monitor is named by a `synchronized` head, or a value goes somewhere.
#[derive(Clone, Copy)]
pub enum What<'a> {
    Reads(&'a FieldName, Owner<'a>),
    Writes(&'a FieldName, Owner<'a>),
    Calls(&'a MemberName, Owner<'a>, &'a [Expr]),
    Makes(&'a Name, &'a [Expr]),
    Starts(&'a Expr),
    Locks(&'a Expr),
    Flows(&'a Expr, Goal<'a>),
}

/// The expressions of the smallest action, declaration, condition, `synchronized` head or `return`
/// around a place: one, or an assignment's target and value.
#[derive(Clone, Copy)]
pub enum Phrase<'a> {
    One(&'a Expr),
    Two(&'a Expr, &'a Expr),
}

/// A place, with the claims of the monitors that stand around it, outermost first, whether the access,
/// the call or the object made is faulty, or the value can't be used, and the number of its token. All
/// is borrowed.
#[derive(Clone, Copy)]
pub struct Seen<'a> {
    pub claims: &'a [Claim<'a>],
    pub phrase: Phrase<'a>,
    pub is_faulty: bool,
    pub at: u32,
    pub what: What<'a>,
}

/// Whose arguments they are.
#[derive(Clone, Copy)]
pub(crate) enum Callee<'a> {
    Method(&'a MemberName),
    Constructor(&'a Name),
    Nothing(&'a [u8]),
}

/// The field that a target of an assignment is, whose it is, where, and whether it is faulty.
#[derive(Clone, Copy)]
pub(crate) struct Access<'a> {
    pub is_faulty: bool,
    pub at: u32,
    pub field: &'a FieldName,
    pub owner: Owner<'a>,
}
