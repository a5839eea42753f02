ghost use Rattle.std.specs.Prelude.{◌≡◌, IfOk};

use desk_base::{Items, OutOfMemory};
use result_records::Finding;
use std::alloc::Global;

/// Findings of a list, moved, in their order.
pub fn into_vec(alloc: Global, findings: Items<Finding>) -> Result<Vec<Finding>, OutOfMemory>
    ensures { IfOk result (λ moved. moved.items ≡ findings) }
{
    let mut findings = findings;
    let mut moved = Vec::new(alloc);
    while let Some(last) = findings.pop() {
        moved.push(last)?;
    }
    moved.reverse();
    Ok(moved)
}
