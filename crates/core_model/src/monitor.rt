ghost use Rattle.std.specs.Prelude.{◌≡◌, ◌∷◌, IfOk, slice_get};
ghost use Rattle.core_model.specs.Monitors as spec;

use crate::body::{Body, Instr};
use crate::frame::{After, Frame};
use crate::instr::{ClassId, Note};
use crate::value::Value;
use desk_base::OutOfMemory;

/// Entering and giving up monitors.
impl Frame {
    fn take_monitor(
        mut self,
        thread: u32,
        note: Note,
        block: Body,
        object: u32,
    ) -> Result<After, OutOfMemory>
        ensures { IfOk result (λ a. a ≡ spec.take_monitor thread self note block object (slice_get self.objects object)) }
    {
        if (object as usize) < self.objects.as_slice().len() {
            self.objects.enter(thread, object)?;
            self.call.rest.push_block(note, block, object)?;
            self.goes_on()
        } else {
            self.ends()
        }
    }

    fn enter_object(
        mut self,
        thread: u32,
        note: Note,
        block: Body,
        object: u32,
    ) -> Result<After, OutOfMemory>
        ensures { IfOk result (λ a. a ≡ spec.enter_from thread self note block (Value.Ref object ∷ self.call.temps)) }
    {
        if self.objects.blocks(thread, object) {
            self.call.temps.push(Value::Ref(object))?;
            self.call.rest.push(Instr::Enter(note, block))?;
            self.goes_on()
        } else {
            self.take_monitor(thread, note, block, object)
        }
    }

    fn enter_value(
        self,
        thread: u32,
        note: Note,
        block: Body,
        monitor: Value,
    ) -> Result<After, OutOfMemory>
        ensures { IfOk result (λ a. a ≡ spec.enter_from thread self note block (monitor ∷ self.call.temps)) }
    {
        match monitor {
            Value::Ref(object) => self.enter_object(thread, note, block, object),
            _ => self.ends(),
        }
    }

    pub(crate) fn enter(
        mut self,
        thread: u32,
        note: Note,
        block: Body,
    ) -> Result<After, OutOfMemory>
        ensures { IfOk result (λ a. a ≡ spec.enter_from thread self note block self.call.temps) }
    {
        match self.call.temps.pop() {
            Some(monitor) => self.enter_value(thread, note, block, monitor),
            None => self.ends(),
        }
    }

    pub(crate) fn enter_class(
        mut self,
        thread: u32,
        note: Note,
        class: ClassId,
        block: Body,
    ) -> Result<After, OutOfMemory>
        ensures { IfOk result (λ a. a ≡ spec.enter_class thread self note class block) }
    {
        if self.objects.blocks(thread, class) {
            self.call.rest.push(Instr::EnterClass(note, class, block))?;
            self.goes_on()
        } else {
            self.take_monitor(thread, note, block, class)
        }
    }
}
