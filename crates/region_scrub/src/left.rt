ghost use Rattle.std.specs.Prelude.{◌≡◌, ◌↔◌, IfOk, IsTrue, None};
ghost use Rattle.region_scrub.specs.Clearing.{aside_at, left};

use crate::fault::RegionFault;
use desk_base::OutOfMemory;
use region_tree::RegionDecl;
use std::alloc::Global;

fn is_left(aside: &[Option<RegionFault>], i: usize) -> bool
    ensures { IsTrue result ↔ (aside_at aside.now i ≡ None) }
{
    match aside.get(i) {
        None => true,
        Some(fault) => fault.is_none(),
    }
}

/// The declarations that are not set aside, in order.
pub fn those_left(
    alloc: Global,
    declared: &[RegionDecl],
    aside: &[Option<RegionFault>],
) -> Result<Vec<RegionDecl>, OutOfMemory>
    ensures { IfOk result (λ decls. decls.items ≡ left declared.now aside.now) }
{
    let mut decls = Vec::new(alloc);
    for (i, decl) in declared.iter().enumerate() {
        if is_left(aside, i) {
            decls.push(decl.clone()?)?;
        }
    }
    Ok(decls)
}
