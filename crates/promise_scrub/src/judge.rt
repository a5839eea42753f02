ghost use Rattle.std.specs.Prelude.{◌≡◌, [], true, false, None, Some, IfOk, OnOk};
ghost use Rattle.scrub_rules.specs.Facts.{facts_of};
ghost use Rattle.promise_scrub.specs.Members.{annotation_by};
ghost use Rattle.promise_scrub.specs.Steps as spec;

use crate::tags::{form_tag, key_tag};
use crate::texts::Texts;
use crate::unit::Unit;
use desk_base::{Items, OutOfMemory, PromiseName, Text};
use promise_grammar::{PromiseTree, Shared};
use result_records::FindingCode;
use scrub_rules::{Context, Offer, Site, least, offers_of};
use std::alloc::Global;

/// Where an annotation stands: its unit's key, whether it is spread to it, the site, and the name of
/// the parameter, which is empty at the unit itself.
#[derive(Clone, Copy)]
pub(crate) struct Place<'a> {
    pub(crate) key: &'a Text,
    pub(crate) spread: bool,
    pub(crate) site: Site,
    pub(crate) param: &'a [u8],
}

// The promises but those that the member has itself.
fn not_among(alloc: Global, own: &Texts, offers: &[Offer]) -> Result<Items<Offer>, OutOfMemory>
    ensures { IfOk result (λ kept. kept ≡ spec.kept_offers true own.now offers.now) }
{
    let mut kept = Items::new(alloc);
    for offer in offers {
        let tag = key_tag(alloc, offer)?;
        if !own.has(&tag) {
            kept.push(offer.clone()?)?;
        }
    }
    Ok(kept)
}

// A written annotation keeps all that it offers.
fn all_of(own: &Texts, offers: Items<Offer>) -> Items<Offer>
    ensures { result ≡ spec.kept_offers false own.now offers }
{
    let _written = own;
    offers
}

// What is left of the promises that an annotation offers: one that is spread gives nothing that the
// member has itself.
fn kept_offers(
    alloc: Global,
    spread: bool,
    own: &Texts,
    offers: Items<Offer>,
) -> Result<Items<Offer>, OutOfMemory>
    ensures { IfOk result (λ kept. kept ≡ spec.kept_offers spread own.now offers) }
{
    if spread {
        not_among(alloc, own, offers.as_slice())
    } else {
        Ok(all_of(own, offers))
    }
}

// Whether one of the promises repeats one that stands, or an earlier one of these.
fn repeats(alloc: Global, tags: &Texts, offers: &[Offer]) -> Result<bool, OutOfMemory>
    ensures { IfOk result (λ answer. answer ≡ spec.repeats_tag tags.now [] offers.now) }
{
    let mut seen = Texts::new(alloc);
    for offer in offers {
        let tag = form_tag(alloc, offer)?;
        if tags.has(&tag) || seen.has(&tag) {
            return Ok(true);
        }
        seen.push(tag)?;
    }
    Ok(false)
}

fn repeat_code(
    alloc: Global,
    tags: &Texts,
    offers: &[Offer],
) -> Result<Option<FindingCode>, OutOfMemory>
    ensures { IfOk result (λ code. code ≡ spec.repeat_code tags.now offers.now) }
{
    if repeats(alloc, tags, offers)? {
        Ok(Some(FindingCode::RepeatedPromise))
    } else {
        Ok(None)
    }
}

fn least_code(first: Option<FindingCode>, offers: &[Offer]) -> Option<FindingCode>
    ensures { result ≡ spec.least_code first offers.now }
{
    let mut code = first;
    for offer in offers {
        code = least(code, offer.code);
    }
    code
}

// Sets an annotation aside with its code, or lets it stand.
fn put_by_code(
    alloc: Global,
    place: &Place<'_>,
    name: PromiseName,
    tree: &Shared<PromiseTree>,
    offers: &[Offer],
    code: Option<FindingCode>,
    unit: &mut Unit,
) -> Result<(), OutOfMemory>
    ensures { OnOk result (unit.new ≡ spec.put_by_code place.now.key.now place.now.spread name tree.now offers.now code unit.old) }
{
    match code {
        Some(code) => unit.put_aside(alloc, place.key, name, code),
        None => unit.put_offers(alloc, place.key, place.spread, tree, offers),
    }
}

// Judges an annotation by what is left of its promises: where nothing is left of one that is spread,
// it is dropped; else the first code of its promises counts.
fn put_kept(
    alloc: Global,
    place: &Place<'_>,
    name: PromiseName,
    tree: &Shared<PromiseTree>,
    offers: &Items<Offer>,
    unit: &mut Unit,
) -> Result<(), OutOfMemory>
    ensures { OnOk result (unit.new ≡ spec.put_kept place.now.key.now place.now.spread name tree.now offers.now unit.old) }
{
    if place.spread && offers.is_empty() {
        return Ok(());
    }
    let repeat = repeat_code(alloc, &unit.tags, offers.as_slice())?;
    let code = least_code(repeat, offers.as_slice());
    put_by_code(alloc, place, name, tree, offers.as_slice(), code, unit)
}

/// Judges an annotation whose content may stand at its site, and puts it to its unit's promises.
pub(crate) fn put_tree(
    alloc: Global,
    at: &Context<'_>,
    place: &Place<'_>,
    name: PromiseName,
    tree: &Shared<PromiseTree>,
    unit: &mut Unit,
) -> Result<(), OutOfMemory>
    ensures { OnOk result (unit.new ≡ spec.put_annotation place.now.key.now unit.old (annotation_by (facts_of at.now) place.now.site place.now.param.now place.now.spread name None (Some tree.now))) }
{
    let offers = offers_of(alloc, at, place.site, place.param, tree.get())?;
    let kept = kept_offers(alloc, place.spread, &unit.own, offers)?;
    put_kept(alloc, place, name, tree, &kept, unit)
}

/// Judges an annotation that has a code already, or none, and puts it to its unit's promises.
pub(crate) fn put_annotation(
    alloc: Global,
    at: &Context<'_>,
    place: &Place<'_>,
    name: PromiseName,
    code: Option<FindingCode>,
    tree: &Option<Shared<PromiseTree>>,
    unit: &mut Unit,
) -> Result<(), OutOfMemory>
    ensures { OnOk result (unit.new ≡ spec.put_annotation place.now.key.now unit.old (annotation_by (facts_of at.now) place.now.site place.now.param.now place.now.spread name code tree.now)) }
{
    match (code, tree) {
        (Some(code), _) => unit.put_aside(alloc, place.key, name, code),
        (None, None) => unit.put_aside(alloc, place.key, name, FindingCode::BadContent),
        (None, Some(tree)) => put_tree(alloc, at, place, name, tree, unit),
    }
}
