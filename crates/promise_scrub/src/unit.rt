use crate::listed::{aside_of, is_vouch, standing_of};
use crate::surface::{Aside, Standing};
use crate::tags::{form_tag, key_tag};
use crate::texts::Texts;
use desk_base::{Items, OutOfMemory, PromiseName, Text};
use promise_grammar::{PromiseTree, Shared};
use result_records::FindingCode;
use scrub_rules::Offer;
use std::alloc::Global;

/// The promises of one unit, as its annotations are judged one by one: how many there were, which
/// promises the written ones gave, the forms and the keys of those that stand, and what stands and
/// what was set aside.
#[derive(Drop)]
pub(crate) struct Unit {
    pub(crate) number: usize,
    pub(crate) own: Texts,
    pub(crate) tags: Texts,
    pub(crate) stood: Texts,
    pub(crate) standing: Items<Standing>,
    pub(crate) aside: Items<Aside>,
    pub(crate) vouched: bool,
}

impl Unit {
    ghost use Rattle.std.specs.Prelude.{◌≡◌, OnOk};
    ghost use Rattle.promise_scrub.specs.Steps as spec;

    /// A unit without promises.
    pub(crate) fn new(alloc: Global) -> Unit
        ensures { result ≡ spec.no_promises }
    {
        Unit {
            number: 0,
            own: Texts::new(alloc),
            tags: Texts::new(alloc),
            stood: Texts::new(alloc),
            standing: Items::new(alloc),
            aside: Items::new(alloc),
            vouched: false,
        }
    }

    /// Sets one more annotation aside.
    pub(crate) fn put_aside(
        &mut self,
        alloc: Global,
        key: &Text,
        name: PromiseName,
        code: FindingCode,
    ) -> Result<(), OutOfMemory>
        ensures { OnOk result (self.new ≡ spec.put_aside key.now name code self.old) }
    {
        self.number = self.number.checked_add(1).ok_or(OutOfMemory)?;
        let aside = aside_of(alloc, key, name, self.number, code)?;
        self.aside.push(aside)?;
        Ok(())
    }

    fn put_own(&mut self, alloc: Global, spread: bool, offer: &Offer) -> Result<(), OutOfMemory>
        ensures { OnOk result (self.new ≡ record self.old { own = spec.own_more spread self.old offer.now }) }
    {
        if spread {
            return Ok(());
        }
        let tag = key_tag(alloc, offer)?;
        self.own.push(tag)?;
        Ok(())
    }

    fn put_standing(
        &mut self,
        alloc: Global,
        key: &Text,
        tree: &Shared<PromiseTree>,
        offer: &Offer,
    ) -> Result<(), OutOfMemory>
        ensures { OnOk result (self.new ≡ record self.old { standing = spec.standing_more key.now tree.now self.old offer.now }) }
    {
        let tag = key_tag(alloc, offer)?;
        if self.stood.has(&tag) {
            return Ok(());
        }
        let promise = standing_of(key, tree, offer)?;
        self.standing.push(promise)?;
        Ok(())
    }

    fn put_tags(&mut self, alloc: Global, offer: &Offer) -> Result<(), OutOfMemory>
        ensures { OnOk result (self.new ≡ spec.put_tags self.old offer.now) }
    {
        let tag = key_tag(alloc, offer)?;
        self.stood.push(tag)?;
        let form = form_tag(alloc, offer)?;
        self.tags.push(form)
    }

    fn put_offer(
        &mut self,
        alloc: Global,
        key: &Text,
        spread: bool,
        tree: &Shared<PromiseTree>,
        offer: &Offer,
    ) -> Result<(), OutOfMemory>
        ensures { OnOk result (self.new ≡ spec.put_offer key.now spread tree.now self.old offer.now) }
    {
        self.put_standing(alloc, key, tree, offer)?;
        self.put_own(alloc, spread, offer)?;
        self.put_tags(alloc, offer)
    }

    /// Puts one more annotation that stands, with the promises that it gives.
    pub(crate) fn put_offers(
        &mut self,
        alloc: Global,
        key: &Text,
        spread: bool,
        tree: &Shared<PromiseTree>,
        offers: &[Offer],
    ) -> Result<(), OutOfMemory>
        ensures { OnOk result (self.new ≡ spec.put_offers key.now spread tree.now offers.now self.old) }
    {
        self.number = self.number.checked_add(1).ok_or(OutOfMemory)?;
        self.vouched = self.vouched || is_vouch(tree.get());
        for offer in offers {
            self.put_offer(alloc, key, spread, tree, offer)?;
        }
        Ok(())
    }
}
