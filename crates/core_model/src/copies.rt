ghost use Rattle.std.specs.Prelude.{◌≡◌, IfOk};

use crate::config::{Call, Config, Thread};
use crate::stack::Stack;
use crate::threads::Threads;
use crate::value::Value;
use desk_base::{Items, OutOfMemory};
use std::alloc::Global;

impl Call {
    fn copy(&self, alloc: Global) -> Result<Call, OutOfMemory>
        ensures { IfOk result (λ copy. copy ≡ self.now) }
    {
        Ok(Call {
            unit: self.unit,
            rest: self.rest.copy(alloc)?,
            locals: Items::from_slice(alloc, self.locals.as_slice())?,
            temps: self.temps.copy(alloc)?,
            gives: self.gives,
        })
    }
}

impl Stack<Call> {
    fn copy_calls(&self, alloc: Global) -> Result<Stack<Call>, OutOfMemory>
        ensures { IfOk result (λ copy. copy ≡ self.now) }
    {
        let mut calls = Stack::new(alloc);
        for call in self.as_slice() {
            calls.push(call.copy(alloc)?)?;
        }
        Ok(calls)
    }
}

impl Thread {
    pub(crate) fn copy(&self, alloc: Global) -> Result<Thread, OutOfMemory>
        ensures { IfOk result (λ copy. copy ≡ self.now) }
    {
        Ok(Thread {
            calls: self.calls.copy_calls(alloc)?,
            mode: self.mode,
        })
    }
}

impl Threads {
    pub(crate) fn copy(&self, alloc: Global) -> Result<Threads, OutOfMemory>
        ensures { IfOk result (λ copy. copy ≡ self.now) }
    {
        let mut threads = Threads::new(alloc);
        for thread in self.as_slice() {
            threads.push(thread.copy(alloc)?)?;
        }
        Ok(threads)
    }
}

impl Config {
    /// A copy of the configuration.
    pub fn copy(&self, alloc: Global) -> Result<Config, OutOfMemory>
        ensures { IfOk result (λ copy. copy ≡ self.now) }
    {
        Ok(Config {
            objects: self.objects.copy(alloc)?,
            threads: self.threads.copy(alloc)?,
        })
    }
}
