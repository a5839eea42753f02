use crate::body::Body;
use crate::heap::Heap;
use crate::instr::UnitId;
use crate::stack::Stack;
use crate::threads::Threads;
use crate::value::Value;
use desk_base::Items;

/// What the end of a call pushes onto its caller's temporaries: its result, if it has one, or the
/// object that it was to make.
#[derive(Clone, Copy, Debug, PartialEq, Eq)]
pub enum Gives {
    Own,
    Object(u32),
}

/// A call: its unit, what is left of its code, its locals (those that aren't set yet are null), its
/// temporaries and what its end pushes.
#[derive(Drop)]
pub struct Call {
    pub unit: UnitId,
    pub rest: Body,
    pub locals: Items<Value>,
    pub temps: Stack<Value>,
    pub gives: Gives,
}

/// Whether a thread runs, leaves its top call (with a result or none), ends call by call, or is over.
#[derive(Clone, Copy, Debug, PartialEq, Eq)]
pub enum Mode {
    Running,
    Leaving(Option<Value>),
    Ending,
    Over,
}

/// A thread: its calls, the top first, and its mode.
#[derive(Drop)]
pub struct Thread {
    pub calls: Stack<Call>,
    pub mode: Mode,
}

/// A configuration: its objects and threads, each by its number.
#[derive(Drop)]
pub struct Config {
    pub objects: Heap,
    pub threads: Threads,
}
