ghost use Rattle.std.specs.Prelude.{◌≡◌, IfOk};
ghost use Rattle.promise_scrub.specs.Steps as spec;
ghost use Rattle.promise_scrub.specs.Verdicts.{is_in_region};

use desk_base::{Bytes, OutOfMemory, PromiseName};
use scrub_rules::Offer;
use std::alloc::Global;

/// What promises of one target with one key have in common: their kind and their detail.
pub(crate) fn key_tag(alloc: Global, offer: &Offer) -> Result<Bytes, OutOfMemory>
    ensures { IfOk result (λ tag. tag ≡ spec.key_tag offer.now) }
{
    let mut tag = Bytes::new(alloc);
    tag.push(offer.name as u8)?;
    tag.append(offer.detail.as_slice())?;
    Ok(tag)
}

fn is_in_region(form: PromiseName) -> bool
    ensures { result ≡ is_in_region form }
{
    matches!(form, PromiseName::InRegion)
}

/// What promises have in common of which one repeats the other: the form and the key, and of an
/// `InRegion` the form alone.
pub(crate) fn form_tag(alloc: Global, offer: &Offer) -> Result<Bytes, OutOfMemory>
    ensures { IfOk result (λ tag. tag ≡ spec.form_tag offer.now) }
{
    let mut tag = Bytes::new(alloc);
    tag.push(offer.form as u8)?;
    if is_in_region(offer.form) {
        return Ok(tag);
    }
    tag.push(offer.name as u8)?;
    tag.append(offer.detail.as_slice())?;
    Ok(tag)
}
