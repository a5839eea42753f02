ghost use Rattle.std.specs.Prelude.{◌≡◌, IfOk};
ghost use Rattle.project_answers.specs.Promises as spec;

use desk_base::{OutOfMemory, PromiseKey, PromiseName, Text};
use std::alloc::Global;

/// The promises of a project in order, `Program` first: those of its units, that stand or are set aside.
pub fn promise_list(
    alloc: Global,
    promises: Vec<PromiseKey>,
) -> Result<Vec<PromiseKey>, OutOfMemory>
    ensures { IfOk result (λ list. list.items ≡ spec.promise_list promises.items) }
{
    let mut promises = promises;
    promises.sort()?;
    let mut list = Vec::new(alloc);
    list.push(PromiseKey {
        target: Text::new(alloc),
        name: PromiseName::Program,
        detail: Text::new(alloc),
    })?;
    list.append(&mut promises)?;
    Ok(list)
}
