ghost use Rattle.std.specs.Prelude.{◌≡◌, IfOk};
ghost use Rattle.lock_findings.specs.Promises.{Promises};

use crate::lock::{Guard, Need};
use desk_base::{Items, Name, OutOfMemory};
use std::alloc::Global;

/// What is asked of the promises on locks in a project.
pub trait LockPromises {
    /// All that is known of them.
    ghost promises: { Self → Promises };

    /// The locks in whose region the field of a class is, in written order.
    fn guards(&self, alloc: Global, class: &Name, field: &Name) -> Result<Items<Guard>, OutOfMemory>
        ensures { IfOk result (λ found. found ≡ (promises self.now).guards class.now field.now) };

    /// The locks that the member of a class with that name and so many parameters requires, in written
    /// order. A constructor has the name `new`.
    fn needs(
        &self,
        alloc: Global,
        class: &Name,
        name: &[u8],
        count: usize,
    ) -> Result<Items<Need>, OutOfMemory>
        ensures { IfOk result (λ found. found ≡ (promises self.now).needs class.now name.now count) };
}
