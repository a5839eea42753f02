ghost use Rattle.std.specs.Prelude.{◌≡◌, ◌++◌, [], ◌∷◌, slice_get, slice_set, length, MatchOption, OnOk, IfOk};
ghost use Rattle.core_model.specs.Begin.{no_thread};

use crate::config::{Mode, Thread};
use crate::stack::Stack;
use desk_base::OutOfMemory;
use std::alloc::Global;
use std::marker::Model;
use std::mem;

/// The threads of a configuration. Contracts see the list of them.
#[derive(Drop)]
pub struct Threads {
    threads: Vec<Thread>,
}

impl Model for Threads {
    ghost use Rattle.std.specs.Prelude.{List};
    ghost use Rattle.core_model.specs.declared.config.Thread.{Thread};
    ghost use Rattle.std.specs.Coded.{coded_list};
    ghost use Rattle.core_model.specs.contracts.config.Thread as thread;

    ghost Value = { List Thread };

    ghost coded = { coded_list thread.the_row.coded };

    ghost view = { λ t. t.threads.items };
}

impl Threads {
    /// No threads. It takes no memory.
    pub fn new(alloc: Global) -> Threads
        ensures { result ≡ [] }
    {
        Threads {
            threads: Vec::new(alloc),
        }
    }

    pub fn as_slice(&self) -> &[Thread]
        ensures { result.now ≡ self.now }
    {
        self.threads.as_slice()
    }

    /// Puts a thread at the end.
    pub fn push(&mut self, thread: Thread) -> Result<(), OutOfMemory>
        ensures { OnOk result (self.new ≡ self.old ++ thread ∷ []) }
    {
        self.threads.push(thread)?;
        Ok(())
    }

    /// Takes the thread out; one that is over stands in its place.
    pub fn take(&mut self, alloc: Global, at: u32) -> Option<Thread>
        ensures thread { result ≡ slice_get self.old at }
        ensures place { self.new ≡ slice_set self.old at no_thread }
    {
        let over = Thread {
            calls: Stack::new(alloc),
            mode: Mode::Over,
        };
        if (at as usize) < self.threads.len() {
            Some(mem::replace(&mut self.threads[at as usize], over))
        } else {
            None
        }
    }

    /// Puts the thread in the place of the number, where there is one.
    pub fn set(&mut self, at: u32, thread: Thread)
        ensures { self.new ≡ slice_set self.old at thread }
    {
        if (at as usize) < self.threads.len() {
            self.threads[at as usize] = thread;
        }
    }
}
