ghost use Rattle.std.specs.Prelude.{◌≡◌, ◌∷◌, [], map, codes, IfOk};
ghost use Rattle.std.specs.Option.{option_copied};
ghost use Rattle.class_faces.specs.Keys.{text_of};
ghost use Rattle.desk_base.specs.declared.key.PromiseName.TheVariants as kind;
ghost use Rattle.promise_grammar.specs.declared.tree.PromiseTree.{out-PromiseTree};
ghost use Rattle.scrub_rules.specs.Facts.{facts_of};
ghost use Rattle.scrub_rules.specs.Offers as spec;
ghost use Rattle.scrub_rules.specs.Target.{kinds_in};

use crate::context::Context;
use crate::place::{Site, SiteKind, params_of};
use crate::target::{Lookup, effects_code, in_region_code, lock_code};
use class_faces::text_of;
use desk_base::{Bytes, Items, Name, OutOfMemory, PromiseName, Text};
use java_tree::{MemberTree, Param};
use promise_grammar::{BorrowedContent, EffectsContent, LockItem, PromiseTree, UniqueContent};
use result_records::FindingCode;
use std::alloc::{AllocError, Global};
use std::collections::BTreeMap;

/// A promise that an annotation offers at its target: the kind of the annotation, the kind and the
/// detail of the promise, and the code of what it names, where that can't be named there.
#[derive(Debug, Drop)]
pub struct Offer {
    pub form: PromiseName,
    pub name: PromiseName,
    pub detail: Text,
    pub code: Option<FindingCode>,
}

impl Clone for Offer {
    ghost is_clone = { λ offer copy. copy ≡ offer };

    fn clone(&self) -> Result<Offer, AllocError> {
        Ok(Offer {
            form: self.form,
            name: self.name,
            detail: self.detail.clone()?,
            code: self.code,
        })
    }
}

fn colon(alloc: Global, owner: &[u8], name: &[u8]) -> Result<Bytes, OutOfMemory>
    ensures { IfOk result (λ text. text ≡ spec.colon owner.now name.now) }
{
    let mut text = Bytes::from_slice(alloc, owner)?;
    text.append(b":")?;
    text.append(name)?;
    Ok(text)
}

// An item of a `RequiresLock` in the long form, `this:lock` or `owner:lock`; as it is written where
// the class has no such lock. `kinds` has the class's locks, with whether each is static.
fn lock_detail(
    alloc: Global,
    kinds: &BTreeMap<Name, bool>,
    class: &Name,
    item: &LockItem,
) -> Result<Bytes, OutOfMemory>
    ensures { IfOk result (λ text. text ≡ spec.lock_detail (kinds_in kinds.now) class.now item.now) }
{
    match item {
        LockItem::Bare(name) => match kinds.get(name).copied() {
            None => Bytes::from_slice(alloc, name.as_slice()),
            Some(true) => colon(alloc, class.as_slice(), name.as_slice()),
            Some(false) => colon(alloc, b"this", name.as_slice()),
        },
        LockItem::This(name) => colon(alloc, b"this", name.as_slice()),
        LockItem::Of { owner, lock } => colon(alloc, owner.as_slice(), lock.as_slice()),
    }
}

fn name_in(param: Option<&Param>) -> &[u8]
    ensures { result.now ≡ spec.name_in (option_copied param.entry) }
{
    match param {
        Some(param) => param.name.text.as_slice(),
        None => &[],
    }
}

/// The name of a member's parameter, by its number from 0; empty where there is none.
pub fn param_name(member: &MemberTree, param: Option<usize>) -> &[u8]
    ensures { result.now ≡ spec.param_name member.now param }
{
    match param {
        None => &[],
        Some(i) => name_in(sqlite_items::at(params_of(member), i)),
    }
}

fn plain(name: PromiseName, detail: Text) -> Offer
    ensures { result ≡ spec.plain name detail }
{
    Offer {
        form: name,
        name,
        detail,
        code: None,
    }
}

fn region_offer(alloc: Global, at: &Context<'_>, name: &Name) -> Result<Offer, OutOfMemory>
    ensures { IfOk result (λ offer. offer ≡ spec.region_offer (facts_of at.now) name.now) }
{
    Ok(Offer {
        form: PromiseName::InRegion,
        name: PromiseName::InRegion,
        detail: text_of(alloc, name.as_slice())?,
        code: in_region_code(at.regions, name, at.field_static),
    })
}

fn lock_offer(
    alloc: Global,
    at: &Context<'_>,
    has_this: bool,
    item: &LockItem,
) -> Result<Offer, OutOfMemory>
    ensures { IfOk result (λ offer. offer ≡ spec.lock_offer (facts_of at.now) has_this item.now) }
{
    let lookup = Lookup {
        kinds: at.locks,
        class: at.class,
        has_this,
        params: at.params,
    };
    let code = lock_code(&lookup, item);
    let detail = lock_detail(alloc, at.locks, at.class, item)?;
    Ok(Offer {
        form: PromiseName::RequiresLock,
        name: PromiseName::RequiresLock,
        detail: text_of(alloc, detail.as_slice())?,
        code,
    })
}

// The promises of a list of locks, one for each item.
fn lock_offers(
    alloc: Global,
    at: &Context<'_>,
    has_this: bool,
    items: &[LockItem],
) -> Result<Items<Offer>, OutOfMemory>
    ensures { IfOk result (λ offers. offers ≡ map (spec.lock_offer (facts_of at.now) has_this) items.now) }
{
    let mut offers = Items::new(alloc);
    for item in items {
        offers.push(lock_offer(alloc, at, has_this, item)?)?;
    }
    Ok(offers)
}

fn return_offer(alloc: Global, site: SiteKind) -> Result<Offer, OutOfMemory>
    ensures { IfOk result (λ offer. offer ≡ spec.return_offer site) }
{
    match site {
        SiteKind::Ctor => Ok(Offer {
            form: PromiseName::Unique,
            name: PromiseName::Borrowed,
            detail: Text::from_text(alloc, "this")?,
            code: None,
        }),
        _ => Ok(plain(PromiseName::Unique, Text::from_text(alloc, "return")?)),
    }
}

fn effects_offer(alloc: Global, at: &Context<'_>, has_this: bool, content: &EffectsContent) -> Offer
    ensures { result ≡ spec.effects_offer (facts_of at.now) has_this content.now }
{
    let lookup = Lookup {
        kinds: at.regions,
        class: at.class,
        has_this,
        params: at.params,
    };
    Offer {
        form: PromiseName::RegionEffects,
        name: PromiseName::RegionEffects,
        detail: Text::new(alloc),
        code: effects_code(&lookup, content),
    }
}

fn single(alloc: Global, offer: Offer) -> Result<Items<Offer>, OutOfMemory>
    ensures { IfOk result (λ offers. offers ≡ offer ∷ []) }
{
    let mut offers = Items::new(alloc);
    offers.push(offer)?;
    Ok(offers)
}

fn named(alloc: Global, name: PromiseName, detail: &[u8]) -> Result<Items<Offer>, OutOfMemory>
    ensures { IfOk result (λ offers. offers ≡ spec.plain name (text_of detail.now) ∷ []) }
{
    let detail = text_of(alloc, detail)?;
    single(alloc, plain(name, detail))
}

fn borrowed_this(alloc: Global) -> Result<Items<Offer>, OutOfMemory>
    ensures { IfOk result (λ offers. offers ≡ spec.plain kind.Borrowed (codes "this") ∷ []) }
{
    let detail = Text::from_text(alloc, "this")?;
    single(alloc, plain(PromiseName::Borrowed, detail))
}

/// The promises that an annotation offers at its target, in the order of its items, each with the
/// first code of what it names. `param` is the name of the parameter that it stands at, empty
/// elsewhere.
pub fn offers_of(
    alloc: Global,
    at: &Context<'_>,
    site: Site,
    param: &[u8],
    tree: &PromiseTree,
) -> Result<Items<Offer>, OutOfMemory>
    ensures { IfOk result (λ offers. offers ≡ spec.offers_of (facts_of at.now) site param.now (out-PromiseTree tree.now)) }
{
    match tree {
        PromiseTree::Region(region) => named(alloc, PromiseName::Region, region.name.as_slice()),
        PromiseTree::InRegion(name) => single(alloc, region_offer(alloc, at, name)?),
        PromiseTree::RegionLock(lock) => named(
            alloc,
            PromiseName::RegionLock,
            lock.name.as_slice(),
        ),
        PromiseTree::RequiresLock(items) => lock_offers(alloc, at, site.has_this, items.as_slice()),
        PromiseTree::Unique(UniqueContent::Place) => named(alloc, PromiseName::Unique, param),
        PromiseTree::Unique(UniqueContent::Return) => {
            single(alloc, return_offer(alloc, site.kind)?)
        }
        PromiseTree::Borrowed(BorrowedContent::Place) => named(alloc, PromiseName::Borrowed, param),
        PromiseTree::Borrowed(BorrowedContent::This) => borrowed_this(alloc),
        PromiseTree::RegionEffects(content) => {
            single(alloc, effects_offer(alloc, at, site.has_this, content))
        }
        PromiseTree::Starts => single(alloc, plain(PromiseName::Starts, Text::new(alloc))),
        PromiseTree::Promise(_, _) | PromiseTree::Assume(_, _) | PromiseTree::Vouch(_) => {
            Ok(Items::new(alloc))
        }
    }
}
