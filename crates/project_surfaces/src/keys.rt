ghost use Rattle.std.specs.Prelude.{◌≡◌, ◌++◌, OnOk, map};
ghost use Rattle.project_surfaces.specs.Keys as spec;

use desk_base::{OutOfMemory, PromiseKey};
use promise_scrub::{Aside, Standing, Surface};

fn put_standing(promises: &[Standing], keys: &mut Vec<PromiseKey>) -> Result<(), OutOfMemory>
    ensures { OnOk result (keys.new.items ≡ keys.old.items ++ map spec.standing_key promises.now) }
{
    for promise in promises {
        keys.push(promise.key.clone()?)?;
    }
    Ok(())
}

fn put_asides(promises: &[Aside], keys: &mut Vec<PromiseKey>) -> Result<(), OutOfMemory>
    ensures { OnOk result (keys.new.items ≡ keys.old.items ++ map spec.aside_key promises.now) }
{
    for promise in promises {
        keys.push(promise.key.clone()?)?;
    }
    Ok(())
}

/// Puts the keys of the promises of a surface: of those that stand, then of those that are set aside.
pub(crate) fn put_keys(surface: &Surface, keys: &mut Vec<PromiseKey>) -> Result<(), OutOfMemory>
    ensures { OnOk result (keys.new.items ≡ keys.old.items ++ spec.keys_of surface.now) }
{
    put_standing(surface.standing.as_slice(), keys)?;
    put_asides(surface.aside.as_slice(), keys)?;
    Ok(())
}
