ghost use Rattle.std.specs.Prelude.{◌≡◌, IfOk};
ghost use Rattle.core_model.specs.Frames as spec;

use crate::config::{Call, Mode, Thread};
use crate::heap::Heap;
use crate::stack::Stack;
use crate::value::Value;
use desk_base::OutOfMemory;

/// What a step finds: the objects, the call on top of its thread and those beneath.
#[derive(Drop)]
pub struct Frame {
    pub objects: Heap,
    pub call: Call,
    pub below: Stack<Call>,
}

/// What a step leaves: the objects, the calls and the mode of its thread, and a thread that it
/// started.
#[derive(Drop)]
pub struct After {
    pub objects: Heap,
    pub calls: Stack<Call>,
    pub mode: Mode,
    pub started: Option<Thread>,
}

impl Frame {
    /// The call on top goes on in the mode.
    pub(crate) fn after(self, mode: Mode) -> Result<After, OutOfMemory>
        ensures { IfOk result (λ a. a ≡ spec.after self mode) }
    {
        let Frame {
            objects,
            call,
            below: mut calls,
        } = self;
        calls.push(call)?;
        Ok(After {
            objects,
            calls,
            mode,
            started: None,
        })
    }

    /// The call on top goes on.
    pub(crate) fn goes_on(self) -> Result<After, OutOfMemory>
        ensures { IfOk result (λ a. a ≡ spec.goes_on self) }
    {
        self.after(Mode::Running)
    }

    /// The thread ends.
    pub(crate) fn ends(mut self) -> Result<After, OutOfMemory>
        ensures { IfOk result (λ a. a ≡ spec.ends self) }
    {
        self.call.temps.clear();
        self.after(Mode::Ending)
    }

    /// The call on top goes on with one more temporary.
    pub(crate) fn push(mut self, value: Value) -> Result<After, OutOfMemory>
        ensures { IfOk result (λ a. a ≡ spec.push self value) }
    {
        self.call.temps.push(value)?;
        self.goes_on()
    }

    /// The same where there is a value; else the thread ends.
    pub(crate) fn push_if(self, value: Option<Value>) -> Result<After, OutOfMemory>
        ensures { IfOk result (λ a. a ≡ spec.push_if self value) }
    {
        match value {
            Some(value) => self.push(value),
            None => self.ends(),
        }
    }
}
