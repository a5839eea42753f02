ghost use Rattle.std.specs.Prelude.{◌≡◌, ◌≤◌, [], ◌∷◌, length, take, drop, reverse, slice_get, MatchOption, OnOk, IfOk};
ghost use Rattle.std.specs.Option.{option_copied};

use desk_base::{Items, OutOfMemory};
use std::alloc::Global;
use std::marker::Model;

/// A stack. Contracts see the list of its items, the top first.
#[derive(Drop)]
pub struct Stack<T> {
    items: Vec<T>,
}

impl<T> Model for Stack<T> {
    ghost use Rattle.std.specs.Prelude.{List, reverse};
    ghost use Rattle.std.specs.Coded.{coded_list};

    ghost Value = { List T };

    ghost coded = { coded_list T.code };

    ghost view = { λ s. reverse s.items.items };
}

impl<T: Drop> Stack<T> {
    /// An empty stack. It takes no memory.
    pub fn new(alloc: Global) -> Stack<T>
        ensures { result ≡ [] }
    {
        Stack {
            items: Vec::new(alloc),
        }
    }

    pub fn len(&self) -> usize
        ensures { result ≡ length self.now }
    {
        self.items.len()
    }

    /// The item that lies so many beneath the top.
    pub fn beneath(&self, depth: usize) -> Option<&T>
        ensures { option_copied result ≡ slice_get self.now depth }
    {
        let count = self.items.len();
        if depth < count {
            Some(&self.items[count - 1 - depth])
        } else {
            None
        }
    }

    pub fn push(&mut self, item: T) -> Result<(), OutOfMemory>
        ensures { OnOk result (self.new ≡ item ∷ self.old) }
    {
        self.items.push(item)?;
        Ok(())
    }

    pub fn pop(&mut self) -> Option<T>
        ensures { MatchOption result ((self.old ≡ []) × (self.new ≡ [])) (λ top. self.old ≡ top ∷ self.new) }
    {
        self.items.pop()
    }

    /// Drops all items.
    pub fn clear(&mut self)
        ensures { self.new ≡ [] }
    {
        self.items.clear();
    }

    /// Takes so many items from the top; the top comes last.
    pub fn take_top(&mut self, alloc: Global, count: usize) -> Result<Items<T>, OutOfMemory>
        requires { count ≤ length self.old }
        ensures taken { IfOk result (λ items. items ≡ reverse (take count self.old)) }
        ensures rest { OnOk result (self.new ≡ drop count self.old) }
    {
        let mut taken = Vec::new(alloc);
        for _ in 0..count {
            if let Some(item) = self.pop() {
                taken.push(item)?;
            }
        }
        taken.reverse();
        Ok(Items::from_vec(taken))
    }

    /// The items, the top last.
    pub fn as_slice(&self) -> &[T]
        ensures { result.now ≡ reverse self.now }
    {
        self.items.as_slice()
    }
}

impl<T: Copy> Stack<T> {
    /// A copy of the stack.
    pub fn copy(&self, alloc: Global) -> Result<Stack<T>, OutOfMemory>
        ensures { IfOk result (λ copy. copy ≡ self.now) }
    {
        Ok(Stack {
            items: Vec::from_slice(alloc, self.items.as_slice())?,
        })
    }
}
