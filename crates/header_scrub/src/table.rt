use crate::lock::Lock;
use desk_base::{Items, Name, OutOfMemory};
use std::alloc::Global;
use std::collections::BTreeSet;
use std::marker::Model;

/// Locks in the order in which they were put, each of which can be looked up by its name. Callers
/// see a list.
#[derive(Drop)]
pub(crate) struct LockTable {
    list: Items<Lock>,
    names: BTreeSet<Name>,
}

impl Model for LockTable {
    ghost use Rattle.std.specs.Prelude.{List};
    ghost use Rattle.header_scrub.specs.declared.lock.Lock.{Lock as Standing};

    ghost Value = { List Standing };

    ghost use Rattle.header_scrub.specs.Locks.{HasNames};

    ghost view = { λ t. t.list };

    ghost invariant = { λ t. HasNames t.names t.list };
}

impl LockTable {
    ghost use Rattle.std.specs.Prelude.{◌≡◌, ◌++◌, ◌∷◌, [], OnOk};
    ghost use Rattle.header_scrub.specs.Locks.{has_lock};

    /// No locks.
    pub(crate) fn new(alloc: Global) -> LockTable
        ensures { result ≡ [] }
    {
        LockTable {
            list: Items::new(alloc),
            names: BTreeSet::new(alloc),
        }
    }

    /// Whether one of the locks has the name.
    pub(crate) fn has(&self, name: &Name) -> bool
        ensures { result ≡ has_lock self.now name.now }
    {
        self.names.contains(name)
    }

    /// Puts one more lock.
    pub(crate) fn push(&mut self, lock: Lock) -> Result<(), OutOfMemory>
        ensures { OnOk result (self.new ≡ self.old ++ lock ∷ []) }
    {
        let name = lock.name.clone()?;
        self.list.push(lock)?;
        match self.names.insert(name) {
            Ok(_) => Ok(()),
            Err(_) => {
                let _ = self.list.pop();
                Err(OutOfMemory)
            }
        }
    }

    /// The locks in order, moved out.
    pub(crate) fn into_items(self) -> Items<Lock>
        ensures { result ≡ self }
    {
        self.list
    }
}
