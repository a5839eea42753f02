ghost use Rattle.std.specs.Prelude.{◌≡◌};
ghost use Rattle.std.specs.Option.{option_copied};
ghost use Rattle.views.specs.Looks as spec;

use desk_base::Name;
use promise_grammar::{PromiseTree, RegionLockContent};
use promise_scrub::Standing;

/// The lock that a promise gives, where it is a `RegionLock`: its name, its holder and its region.
pub fn lock_content(promise: &Standing) -> Option<&RegionLockContent>
    ensures { option_copied result ≡ spec.lock_given promise.now }
{
    if let PromiseTree::RegionLock(content) = promise.tree.get() {
        Some(content)
    } else {
        None
    }
}

/// The region in which a promise puts a field, where it is an `InRegion`.
pub fn region_content(promise: &Standing) -> Option<&Name>
    ensures { option_copied result ≡ spec.region_given promise.now }
{
    if let PromiseTree::InRegion(name) = promise.tree.get() {
        Some(name)
    } else {
        None
    }
}
