ghost use Rattle.std.specs.Prelude.{◌≡◌};
ghost use Rattle.bound_tree.specs.Shown.{claim_as, claims_as};
ghost use Rattle.lock_findings.specs.Held as spec;

use crate::lock::Holder;
use bound_tree::Claim;
use desk_base::Name;

/// Whether the claim is that of a lock of the class, held so, for the base.
fn is_claim_of(holder: &Holder, class: &Name, base: Option<u32>, claim: Claim<'_>) -> bool
    ensures { result ≡ spec.is_claim_of holder.now class.now base (claim_as claim.entry) }
{
    match (holder, base, claim) {
        (Holder::This, Some(base), Claim::Local(local)) => base == local,
        (Holder::Field(name), Some(base), Claim::Field(local, owner, field)) => {
            base == local && class.as_slice() == owner && name.as_slice() == field
        }
        (Holder::Class, _, Claim::Class(owner)) => class.as_slice() == owner,
        (Holder::Static(name), _, Claim::Static(owner, field)) => {
            class.as_slice() == owner && name.as_slice() == field
        }
        _ => false,
    }
}

/// Whether a lock of the class that is held so is held for the base, where these claims stand around.
/// It takes no memory.
pub(crate) fn is_held(
    mut claims: &[Claim<'_>],
    holder: &Holder,
    class: &Name,
    base: Option<u32>,
) -> bool
    ensures { result ≡ spec.is_held (claims_as claims.entry.now) holder.now class.now base }
{
    while let [claim, rest @ ..] = claims {
        if is_claim_of(holder, class, base, *claim) {
            return true;
        }
        claims = rest;
    }
    false
}

/// The same of a lock that need not be there.
pub(crate) fn is_held_if_any(
    claims: &[Claim<'_>],
    holder: &Option<Holder>,
    class: &Name,
    base: Option<u32>,
) -> bool
    ensures { result ≡ spec.is_held_if_any (claims_as claims.now) holder.now class.now base }
{
    match holder {
        Some(holder) => is_held(claims, holder, class, base),
        None => false,
    }
}
