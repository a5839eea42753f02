use desk_base::{Bytes, Items, OutOfMemory};
use std::alloc::Global;
use std::collections::BTreeSet;
use std::marker::Model;

/// Texts in the order in which they were put, each of which can be looked up. Callers see a list.
#[derive(Drop)]
pub(crate) struct Texts {
    list: Items<Bytes>,
    set: BTreeSet<Bytes>,
}

impl Model for Texts {
    ghost use Rattle.std.specs.Prelude.{List, ℕ};
    ghost use Rattle.promise_scrub.specs.Texts.{Lists};

    ghost Value = { List (List ℕ) };

    ghost view = { λ t. t.list };

    ghost invariant = { λ t. Lists t.set t.list };
}

impl Texts {
    ghost use Rattle.std.specs.Prelude.{◌≡◌, ◌++◌, ◌∷◌, [], OnOk};
    ghost use Rattle.promise_scrub.specs.Texts.{is_among};

    /// No texts.
    pub(crate) fn new(alloc: Global) -> Texts
        ensures { result ≡ [] }
    {
        Texts {
            list: Items::new(alloc),
            set: BTreeSet::new(alloc),
        }
    }

    /// Whether the text is one of these.
    pub(crate) fn has(&self, text: &Bytes) -> bool
        ensures { result ≡ is_among text.now self.now }
    {
        self.set.contains(text)
    }

    /// Puts one more text.
    pub(crate) fn push(&mut self, text: Bytes) -> Result<(), OutOfMemory>
        ensures { OnOk result (self.new ≡ self.old ++ text ∷ []) }
    {
        let copy = text.clone()?;
        self.list.push(text)?;
        match self.set.insert(copy) {
            Ok(_) => Ok(()),
            Err(_) => {
                let _ = self.list.pop();
                Err(OutOfMemory)
            }
        }
    }
}
