ghost use Rattle.std.specs.Prelude.{◌≡◌, IfOk};
ghost use Rattle.finding_order.specs.Order as spec;

use desk_base::{Items, OutOfMemory};
use result_records::Finding;
use std::alloc::Global;
use std::cmp::Ordering;

fn compare(a: &Finding, b: &Finding) -> Ordering
    ensures { result ≡ spec.finding_cmp a.now b.now }
{
    a.place
        .cmp(&b.place)
        .then_with(|| a.key.code.cmp(&b.key.code))
        .then_with(|| a.key.on.cmp(&b.key.on))
}

/// The items, moved.
fn moved(alloc: Global, mut items: Items<Finding>) -> Result<Vec<Finding>, OutOfMemory>
    ensures { IfOk result (λ moved. moved.items ≡ items) }
{
    let mut moved = Vec::new(alloc);
    while let Some(last) = items.pop() {
        moved.push(last)?;
    }
    moved.reverse();
    Ok(moved)
}

/// The findings in order.
pub(crate) fn sorted(alloc: Global, findings: Items<Finding>) -> Result<Vec<Finding>, OutOfMemory>
    ensures { IfOk result (λ sorted. sorted.items ≡ spec.in_place findings) }
{
    let mut sorted = moved(alloc, findings)?;
    sorted.sort_by(|a, b| compare(a, b))?;
    Ok(sorted)
}
