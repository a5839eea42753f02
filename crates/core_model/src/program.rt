ghost use Rattle.std.specs.Prelude.{◌≡◌};
ghost use Rattle.std.specs.Option.{option_copied};

use crate::body::Body;
use crate::instr::{ClassId, MemberId, UnitId};
use crate::value::Value;
use desk_base::{Items, Name, Text};

/// The number of the member name `new`, which a constructor has.
pub const NEW: MemberId = 0;

/// The number of the member name `main`.
pub const MAIN: MemberId = 1;

/// The number of the member name `run`, which a started thread calls.
pub const RUN: MemberId = 2;

/// How a field begins: with a value, or with a fresh Object of its own.
#[derive(Clone, Copy, Debug, PartialEq, Eq)]
pub enum Initial {
    Held(Value),
    FreshObject,
}

#[derive(Drop)]
pub struct FieldInfo {
    pub name: Name,
    pub is_static: bool,
    pub is_final: bool,
    pub initial: Initial,
}

/// A member of a class: the number of its name, how many parameters it has, and its unit.
#[derive(Clone, Copy, Debug, PartialEq, Eq)]
pub struct UnitName {
    pub name: MemberId,
    pub params: u32,
    pub unit: UnitId,
}

/// A declared class or interface: its fields and members in written order.
#[derive(Drop)]
pub struct ClassInfo {
    pub name: Name,
    pub fields: Items<FieldInfo>,
    pub units: Items<UnitName>,
}

/// A unit's code. Its locals are `this`, where there is one, the parameters and then the others.
#[derive(Drop)]
pub struct UnitCode {
    pub key: Text,
    pub class: ClassId,
    pub is_static: bool,
    pub locals: u32,
    pub code: Body,
}

/// A program: its classes and interfaces in order of name, its units, the classes with a main, and
/// the names of members, of which the first three are `new`, `main` and `run`.
#[derive(Drop)]
pub struct Program {
    pub classes: Items<ClassInfo>,
    pub units: Items<UnitCode>,
    pub mains: Items<ClassId>,
    pub members: Items<Name>,
}
