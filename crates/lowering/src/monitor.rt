ghost use Rattle.std.specs.Prelude.{◌≡◌, IfOk};
ghost use Rattle.lowering.specs.Lower as lower;
ghost use Rattle.lowering.specs.Noted.{noted_as};
ghost use Rattle.bound_tree.specs.Claims as claims;
ghost use Rattle.bound_tree.specs.Claims.{varies_in};
ghost use Rattle.bound_tree.specs.Shown.{claim_as};
ghost use Rattle.bound_tree.specs.Reading.{term_of};

use crate::instr::{NamedClaim, NamedKnown};
use bound_tree::{Claim, Expr, claim_of};
use desk_base::{Name, OutOfMemory};
use std::alloc::Global;

/// The claim with names of its own.
fn noted(claim: Claim<'_>, alloc: Global) -> Result<NamedClaim, OutOfMemory>
    ensures { IfOk result (λ named. named ≡ noted_as (claim_as claim.entry)) }
{
    match claim {
        Claim::Local(local) => Ok(NamedClaim::Local(local)),
        Claim::Field(local, class, name) => Ok(NamedClaim::Field(
            local,
            Name::from_slice(alloc, class)?,
            Name::from_slice(alloc, name)?,
        )),
        Claim::Static(class, name) => Ok(NamedClaim::Static(
            Name::from_slice(alloc, class)?,
            Name::from_slice(alloc, name)?,
        )),
        Claim::Class(class) => Ok(NamedClaim::Class(Name::from_slice(alloc, class)?)),
    }
}

/// By what the expression's monitor is named, where that is a claim.
pub(crate) fn monitor_of(
    expr: &Expr,
    varies: &[bool],
    alloc: Global,
) -> Result<NamedKnown, OutOfMemory>
    ensures { IfOk result (λ known. known ≡ lower.monitor_of (claims.claim_of (varies_in varies.now) (term_of expr.now))) }
{
    match claim_of(expr, varies) {
        Some(claim) => Ok(NamedKnown::Monitor(noted(claim, alloc)?)),
        None => Ok(NamedKnown::Nothing),
    }
}
