use crate::locks::guards;
use crate::needs::needs;
use desk_base::{Items, Name, OutOfMemory};
use lock_findings::{Guard, LockPromises, Need};
use std::alloc::Global;
use views::View;

/// The promises on locks that a view shows.
#[derive(Drop)]
pub(crate) struct ShownLocks<'a, 'v> {
    pub(crate) view: &'a View<'v>,
}

impl<'a, 'v> LockPromises for ShownLocks<'a, 'v> {
    ghost use Rattle.views.specs.Face.{face};
    ghost use Rattle.lock_check.specs.Judged.{promises_of};

    ghost promises = { λ shown. promises_of (face shown.view.now) };

    fn guards(
        &self,
        alloc: Global,
        class: &Name,
        field: &Name,
    ) -> Result<Items<Guard>, OutOfMemory> {
        guards(alloc, self.view, class, field)
    }

    fn needs(
        &self,
        alloc: Global,
        class: &Name,
        name: &[u8],
        count: usize,
    ) -> Result<Items<Need>, OutOfMemory> {
        needs(alloc, self.view, class, name, count)
    }
}
