ghost use Rattle.std.specs.Prelude.{◌≡◌, IfOk, OnOk};
ghost use Rattle.core_model.specs.CodeOf.{before};
ghost use Rattle.core_model.specs.Frames.{goes_on};
ghost use Rattle.core_model.specs.Monitors.{exit_object};
ghost use Rattle.core_model.specs.Step as spec;

use crate::body::Instr;
use crate::config::{Call, Config, Gives, Mode, Thread};
use crate::frame::{After, Frame};
use crate::heap::Heap;
use crate::instr::Plain;
use crate::program::Program;
use crate::value::Value;
use desk_base::OutOfMemory;
use std::alloc::Global;

impl Gives {
    /// What the call pushes when it is left.
    fn given(self, value: Option<Value>) -> Option<Value>
        ensures { result ≡ spec.given self value }
    {
        match self {
            Gives::Own => value,
            Gives::Object(object) => Some(Value::Ref(object)),
        }
    }
}

impl Call {
    fn give(&mut self, value: Option<Value>) -> Result<(), OutOfMemory>
        ensures { OnOk result (self.new ≡ spec.with_given self.old value) }
    {
        if let Some(value) = value {
            self.temps.push(value)?;
        }
        Ok(())
    }
}

impl Frame {
    fn plain(self, alloc: Global, program: &Program, plain: Plain) -> Result<After, OutOfMemory>
        ensures { IfOk result (λ a. a ≡ spec.do_plain program.now self plain) }
    {
        match plain {
            Plain::Const(value) => self.push(value),
            Plain::Get(local) => self.get(local),
            Plain::Set(local) => self.set(local),
            Plain::Drop => self.drop_top(),
            Plain::Field(field) => self.field(field),
            Plain::FieldKeep(field) => self.field_keep(field),
            Plain::PutField(field) => self.put_field(field),
            Plain::Static(class, field) => self.read(class, field),
            Plain::PutStatic(class, field) => self.put_static(class, field),
            Plain::Make(class, count) => self.make(alloc, program, class, count),
            Plain::MakePlain => self.make_plain(alloc),
            Plain::Call(member, count) => self.call(alloc, program, member, count),
            Plain::CallStatic(class, member, count) => {
                self.call_static(alloc, program, class, member, count)
            }
            Plain::Op(op) => self.operate(op),
            Plain::Neg => self.neg(),
            Plain::Not => self.not(),
            Plain::Start => self.start(alloc, program),
            Plain::Return => self.leave_plain(),
            Plain::ReturnValue => self.leave_with_value(),
        }
    }

    /// The call is left, and the caller goes on; without a caller the thread is over.
    fn resume_caller(self, value: Option<Value>) -> Result<After, OutOfMemory>
        ensures { IfOk result (λ a. a ≡ spec.resumed self.objects (spec.given self.call.gives value) self.below) }
    {
        let Frame {
            objects,
            call,
            below: mut calls,
        } = self;
        let mode = match calls.pop() {
            Some(mut caller) => {
                caller.give(call.gives.given(value))?;
                calls.push(caller)?;
                Mode::Running
            }
            None => Mode::Over,
        };
        Ok(After {
            objects,
            calls,
            mode,
            started: None,
        })
    }

    /// The call is left, and the next one ends; without one the thread is over.
    fn end_caller(self) -> Result<After, OutOfMemory>
        ensures { IfOk result (λ a. a ≡ spec.caller_ended self.objects self.below) }
    {
        let Frame {
            objects,
            call: _,
            below: mut calls,
        } = self;
        let mode = match calls.pop() {
            Some(mut caller) => {
                caller.temps.clear();
                calls.push(caller)?;
                Mode::Ending
            }
            None => Mode::Over,
        };
        Ok(After {
            objects,
            calls,
            mode,
            started: None,
        })
    }

    fn exit(mut self, object: u32) -> Result<After, OutOfMemory>
        ensures { IfOk result (λ a. a ≡ goes_on (exit_object self object)) }
    {
        self.objects.exit(object);
        self.goes_on()
    }

    fn instruction(
        self,
        alloc: Global,
        program: &Program,
        thread: u32,
        instr: Instr,
    ) -> Result<After, OutOfMemory>
        ensures { IfOk result (λ a. a ≡ spec.running_step program.now thread self (before instr self.call.rest)) }
    {
        match instr {
            Instr::Do(_, plain) => self.plain(alloc, program, plain),
            Instr::If(_, yes, no) => self.branch(yes, no),
            Instr::While(note, condition, body) => self.turn(alloc, note, condition, body),
            Instr::Enter(note, block) => self.enter(thread, note, block),
            Instr::EnterClass(note, class, block) => self.enter_class(thread, note, class, block),
            Instr::Exit(_, object) => self.exit(object),
        }
    }

    /// A step of a running thread.
    fn running_step(
        mut self,
        alloc: Global,
        program: &Program,
        thread: u32,
    ) -> Result<After, OutOfMemory>
        ensures { IfOk result (λ a. a ≡ spec.running_step program.now thread self self.call.rest) }
    {
        match self.call.rest.pop() {
            Some(instr) => self.instruction(alloc, program, thread, instr),
            None => self.resume_caller(None),
        }
    }

    /// A step of a thread whose top call is being left.
    fn leaving_step(mut self, value: Option<Value>) -> Result<After, OutOfMemory>
        ensures { IfOk result (λ a. a ≡ spec.leaving_step self value (spec.next_exit self.call.rest)) }
    {
        match self.call.rest.next_exit() {
            Some(object) => {
                self.call.temps.clear();
                self.objects.exit(object);
                self.after(Mode::Leaving(value))
            }
            None => self.resume_caller(value),
        }
    }

    /// A step of a thread that ends.
    fn ending_step(mut self) -> Result<After, OutOfMemory>
        ensures { IfOk result (λ a. a ≡ spec.ending_step self (spec.next_exit self.call.rest)) }
    {
        match self.call.rest.next_exit() {
            Some(object) => {
                self.call.temps.clear();
                self.objects.exit(object);
                self.after(Mode::Ending)
            }
            None => self.end_caller(),
        }
    }

    fn step(
        self,
        alloc: Global,
        program: &Program,
        thread: u32,
        mode: Mode,
    ) -> Result<After, OutOfMemory>
        ensures { IfOk result (λ a. a ≡ spec.call_step program.now thread self mode) }
    {
        match mode {
            Mode::Running => self.running_step(alloc, program, thread),
            Mode::Leaving(value) => self.leaving_step(value),
            Mode::Ending => self.ending_step(),
            Mode::Over => self.after(Mode::Over),
        }
    }
}

impl Thread {
    fn step(
        self,
        alloc: Global,
        program: &Program,
        objects: Heap,
        thread: u32,
    ) -> Result<After, OutOfMemory>
        ensures { IfOk result (λ a. a ≡ spec.thread_step program.now thread objects self self.calls) }
    {
        let Thread { mut calls, mode } = self;
        match calls.pop() {
            Some(call) => {
                let frame = Frame {
                    objects,
                    call,
                    below: calls,
                };
                frame.step(alloc, program, thread, mode)
            }
            None => Ok(After {
                objects,
                calls,
                mode,
                started: None,
            }),
        }
    }
}

/// The step of the thread, made on the configuration itself: it costs what that thread's step
/// costs. A thread that isn't there, is blocked or is over changes nothing. A 2^32nd object, or
/// entry of one monitor, counts as want of memory.
pub fn advance(
    alloc: Global,
    program: &Program,
    config: Config,
    thread: u32,
) -> Result<Config, OutOfMemory>
    ensures { IfOk result (λ c. c ≡ spec.step program.now config thread) }
{
    let Config {
        objects,
        mut threads,
    } = config;
    let Some(now) = threads.take(alloc, thread) else {
        return Ok(Config { objects, threads });
    };
    let After {
        objects,
        calls,
        mode,
        started,
    } = now.step(alloc, program, objects, thread)?;
    threads.set(thread, Thread { calls, mode });
    if let Some(started) = started {
        threads.push(started)?;
    }
    Ok(Config { objects, threads })
}

/// The step of the thread, made on a copy.
pub fn step(
    alloc: Global,
    program: &Program,
    config: &Config,
    thread: u32,
) -> Result<Config, OutOfMemory>
    ensures { IfOk result (λ c. c ≡ spec.step program.now config.now thread) }
{
    advance(alloc, program, config.copy(alloc)?, thread)
}
