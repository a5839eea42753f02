ghost use Rattle.std.specs.Prelude.{◌≡◌, ◌∷◌, IfOk, slice_get};
ghost use Rattle.core_model.specs.Calling as spec;

use crate::config::{Call, Gives, Mode, Thread};
use crate::frame::{After, Frame};
use crate::instr::{ClassId, MemberId, UnitId};
use crate::object::{Obj, ObjKind};
use crate::program::{NEW, Program, RUN};
use crate::stack::Stack;
use crate::value::Value;
use desk_base::{Items, OutOfMemory};
use std::alloc::Global;

/// `this` before the arguments.
fn with_this(alloc: Global, this: Value, args: Items<Value>) -> Result<Items<Value>, OutOfMemory>
    ensures { IfOk result (λ all. all ≡ this ∷ args) }
{
    let mut all = Items::new(alloc);
    all.push(this)?;
    all.append(args)?;
    Ok(all)
}

/// The object that comes first.
fn receiver(args: &[Value]) -> Option<u32>
    ensures { result ≡ spec.receiver args.now }
{
    match args.first() {
        Some(first) => first.object(),
        None => None,
    }
}

/// A thread whose only call this is.
pub(crate) fn thread_of(alloc: Global, call: Call) -> Result<Thread, OutOfMemory>
    ensures { IfOk result (λ thread. thread ≡ spec.thread_of call) }
{
    let mut calls = Stack::new(alloc);
    calls.push(call)?;
    Ok(Thread {
        calls,
        mode: Mode::Running,
    })
}

/// The instructions that make objects, begin calls and start threads.
impl Frame {
    fn begins(self, call: Option<Call>) -> Result<After, OutOfMemory>
        ensures { IfOk result (λ a. a ≡ spec.begins self call) }
    {
        match call {
            Some(call) => {
                let mut after = self.goes_on()?;
                after.calls.push(call)?;
                Ok(after)
            }
            None => self.ends(),
        }
    }

    pub(crate) fn make_plain(mut self, alloc: Global) -> Result<After, OutOfMemory>
        ensures { IfOk result (λ a. a ≡ spec.make_plain self) }
    {
        let object = self.objects.next()?;
        self.objects
            .push(Obj::new(ObjKind::Plain, Items::new(alloc)))?;
        self.push(Value::Ref(object))
    }

    fn construct(
        self,
        alloc: Global,
        program: &Program,
        object: u32,
        args: Items<Value>,
        unit: Option<UnitId>,
    ) -> Result<After, OutOfMemory>
        ensures { IfOk result (λ a. a ≡ spec.construct program.now self object args unit) }
    {
        if unit.is_none() {
            return self.push(Value::Ref(object));
        }
        let all = with_this(alloc, Value::Ref(object), args)?;
        let call = program.call_of(alloc, unit, all, Gives::Object(object))?;
        self.begins(call)
    }

    fn make_of(
        mut self,
        alloc: Global,
        program: &Program,
        class: ClassId,
        count: u32,
        args: Items<Value>,
    ) -> Result<After, OutOfMemory>
        ensures { IfOk result (λ a. a ≡ spec.make_of program.now self class count args (slice_get program.now.classes class)) }
    {
        match program.classes.get(class as usize) {
            Some(info) => {
                let object = self.objects.next()?;
                self.objects.make(alloc, class, info)?;
                let unit = program.unit_number(class, NEW, count);
                self.construct(alloc, program, object, args, unit)
            }
            None => self.ends(),
        }
    }

    pub(crate) fn make(
        mut self,
        alloc: Global,
        program: &Program,
        class: ClassId,
        count: u32,
    ) -> Result<After, OutOfMemory>
        ensures { IfOk result (λ a. a ≡ spec.make_from program.now self class count self.call.temps) }
    {
        if count as usize <= self.call.temps.len() {
            let args = self.call.temps.take_top(alloc, count as usize)?;
            self.make_of(alloc, program, class, count, args)
        } else {
            self.ends()
        }
    }

    fn call_in(
        self,
        alloc: Global,
        program: &Program,
        member: MemberId,
        count: u32,
        args: Items<Value>,
        class: Option<ClassId>,
    ) -> Result<After, OutOfMemory>
        ensures { IfOk result (λ a. a ≡ spec.call_in program.now self member count args class) }
    {
        match class {
            Some(class) => {
                let unit = program.unit_number(class, member, count);
                let call = program.call_of(alloc, unit, args, Gives::Own)?;
                self.begins(call)
            }
            None => self.ends(),
        }
    }

    fn call_on(
        self,
        alloc: Global,
        program: &Program,
        member: MemberId,
        count: u32,
        args: Items<Value>,
    ) -> Result<After, OutOfMemory>
        ensures { IfOk result (λ a. a ≡ spec.call_on program.now self member count args) }
    {
        match receiver(args.as_slice()) {
            Some(object) => {
                let class = self.objects.class_of(object);
                self.call_in(alloc, program, member, count, args, class)
            }
            None => self.ends(),
        }
    }

    pub(crate) fn call(
        mut self,
        alloc: Global,
        program: &Program,
        member: MemberId,
        count: u32,
    ) -> Result<After, OutOfMemory>
        ensures { IfOk result (λ a. a ≡ spec.call_from program.now self member count self.call.temps) }
    {
        if (count as usize) < self.call.temps.len() {
            let args = self.call.temps.take_top(alloc, count as usize + 1)?;
            self.call_on(alloc, program, member, count, args)
        } else {
            self.ends()
        }
    }

    pub(crate) fn call_static(
        mut self,
        alloc: Global,
        program: &Program,
        class: ClassId,
        member: MemberId,
        count: u32,
    ) -> Result<After, OutOfMemory>
        ensures { IfOk result (λ a. a ≡ spec.call_static_from program.now self class member count self.call.temps) }
    {
        if count as usize <= self.call.temps.len() {
            let args = self.call.temps.take_top(alloc, count as usize)?;
            let unit = program.unit_number(class, member, count);
            let call = program.call_of(alloc, unit, args, Gives::Own)?;
            self.begins(call)
        } else {
            self.ends()
        }
    }

    fn start_with(self, alloc: Global, call: Option<Call>) -> Result<After, OutOfMemory>
        ensures { IfOk result (λ a. a ≡ spec.start_with self call) }
    {
        match call {
            Some(call) => {
                let mut after = self.goes_on()?;
                after.started = Some(thread_of(alloc, call)?);
                Ok(after)
            }
            None => self.ends(),
        }
    }

    fn start_in(
        self,
        alloc: Global,
        program: &Program,
        started: Value,
        class: Option<ClassId>,
    ) -> Result<After, OutOfMemory>
        ensures { IfOk result (λ a. a ≡ spec.start_in program.now self started class) }
    {
        match class {
            Some(class) => {
                let mut args = Items::new(alloc);
                args.push(started)?;
                let unit = program.unit_number(class, RUN, 0);
                let call = program.call_of(alloc, unit, args, Gives::Own)?;
                self.start_with(alloc, call)
            }
            None => self.ends(),
        }
    }

    fn start_of(
        self,
        alloc: Global,
        program: &Program,
        started: Value,
    ) -> Result<After, OutOfMemory>
        ensures { IfOk result (λ a. a ≡ spec.start_from program.now self (started ∷ self.call.temps)) }
    {
        match started {
            Value::Null => self.goes_on(),
            Value::Ref(object) => {
                let class = self.objects.class_of(object);
                self.start_in(alloc, program, started, class)
            }
            _ => self.ends(),
        }
    }

    pub(crate) fn start(mut self, alloc: Global, program: &Program) -> Result<After, OutOfMemory>
        ensures { IfOk result (λ a. a ≡ spec.start_from program.now self self.call.temps) }
    {
        match self.call.temps.pop() {
            Some(started) => self.start_of(alloc, program, started),
            None => self.ends(),
        }
    }
}
