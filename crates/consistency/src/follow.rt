ghost use Rattle.std.specs.Prelude.{◌≡◌, ℕ, ◌<◌, ◌^◌, IfOk, length, slice_index_or};
ghost use Rattle.consistency.specs.Steps.{InOrder};
ghost use Rattle.consistency.specs.Tables.{end_by, Ends, Falls};

use crate::rounds::{Rounds, none_left};
use crate::steps::Step;
use desk_base::OutOfMemory;
use std::alloc::Global;

fn end_of(ends: &[Option<u32>], step: Option<Step>) -> Option<u32>
    ensures { result ≡ end_by ends.now step }
{
    match step {
        None => None,
        Some(Step::Own(end)) => Some(end),
        Some(Step::Via(promise)) => match ends.get(promise as usize) {
            None => None,
            Some(end) => *end,
        },
    }
}

/// Where the steps from each promise that left end.
pub(crate) fn ends_of(
    alloc: Global,
    rounds: &Rounds,
    steps: &[Option<Step>],
) -> Result<Vec<Option<u32>>, OutOfMemory>
    requires few { length rounds.now.left.items < 2 ^ 32 }
    requires size { length steps.now ≡ length rounds.now.left.items }
    requires order { InOrder rounds.now.left.items rounds.now.order.items }
    ensures size { IfOk result (λ v. length v.items ≡ length rounds.now.left.items) }
    ensures ends { IfOk result (λ v. Falls rounds.now.left.items steps.now → Ends rounds.now.left.items steps.now v.items) }
{
    let mut ends = none_left(alloc, rounds.left.len() as u32)?;
    for promise in &rounds.order {
        let end = end_of(&ends, steps[*promise as usize]);
        ends[*promise as usize] = end;
    }
    Ok(ends)
}
