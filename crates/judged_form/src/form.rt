ghost use Rattle.std.specs.Prelude.{◌≡◌, ◌↔◌, All, IsTrue};
ghost use Rattle.std.specs.List.{list_any};
ghost use Rattle.judged_form.specs.Form as spec;

use desk_base::PromiseName;
use promise_scrub::{Aside, Standing, Surface};

/// Whether findings on promises of the kind aren't made so far.
fn is_unjudged(name: PromiseName) -> bool
    ensures { result ≡ spec.is_unjudged name }
{
    matches!(
        name,
        PromiseName::Assume
            | PromiseName::Borrowed
            | PromiseName::RegionEffects
            | PromiseName::Starts
            | PromiseName::Unique
            | PromiseName::Vouch
    )
}

fn any_stands(promises: &[Standing]) -> bool
    ensures { result ≡ list_any spec.stands_unjudged promises.now }
{
    promises.iter().any(|promise| is_unjudged(promise.key.name))
}

fn any_is_aside(promises: &[Aside]) -> bool
    ensures { result ≡ list_any spec.aside_unjudged promises.now }
{
    promises.iter().any(|promise| is_unjudged(promise.key.name))
}

/// Whether the type is judged so far: no promise of it, standing or set aside, is an `Assume`,
/// `Borrowed`, `RegionEffects`, `Starts`, `Unique` or `Vouch`, and it assumes and vouches for nothing.
/// It takes no memory.
pub fn is_judged(surface: &Surface) -> bool
    ensures { IsTrue result ↔ spec.IsJudged surface.now }
{
    if any_stands(surface.standing.as_slice()) {
        return false;
    }
    if any_is_aside(surface.aside.as_slice()) {
        return false;
    }
    if !surface.assumptions.is_empty() {
        return false;
    }
    surface.vouched.is_empty()
}

/// Whether all types of a file are. It takes no memory.
pub fn are_judged(surfaces: &[Surface]) -> bool
    ensures { IsTrue result ↔ All spec.IsJudged surfaces.now }
{
    surfaces.iter().all(|surface| is_judged(surface))
}
