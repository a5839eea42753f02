//! Core code: the small machine that a bound program runs on, its configurations, and one step of
//! a thread. It knows nothing of Java's text, of promises or of verdicts.
#![tactic(auto)]

mod access;
mod body;
mod calls;
mod config;
mod copies;
mod frame;
mod heap;
mod instr;
mod machine;
mod make;
mod monitor;
mod object;
mod operator;
mod plain;
mod program;
mod stack;
mod start;
mod threads;
mod unit;
mod value;

pub use access::{Access, next_access};
pub use body::{Body, Instr};
pub use config::{Call, Config, Gives, Mode, Thread};
pub use heap::Heap;
pub use instr::{Claim, ClassId, FieldId, Known, MemberId, Note, Op, Plain, UnitId};
pub use machine::{advance, step};
pub use object::{Obj, ObjKind};
pub use program::{ClassInfo, FieldInfo, Initial, MAIN, NEW, Program, RUN, UnitCode, UnitName};
pub use stack::Stack;
pub use start::begin;
pub use threads::Threads;
pub use value::Value;
