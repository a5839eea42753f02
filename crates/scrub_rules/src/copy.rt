ghost use Rattle.std.specs.Prelude.{◌≡◌, IfOk};
ghost use Rattle.scrub_rules.specs.Offers as spec;

use desk_base::{Items, Name, OutOfMemory};
use promise_grammar::{
    EffectTarget, EffectsContent, LockHolder, LockItem, PromiseTree, RegionContent,
    RegionLockContent,
};
use std::alloc::Global;

fn copied_name(name: &Option<Name>) -> Result<Option<Name>, OutOfMemory>
    ensures { IfOk result (λ copy. copy ≡ name.now) }
{
    match name {
        Some(name) => Ok(Some(name.clone()?)),
        None => Ok(None),
    }
}

fn copied_region(region: &RegionContent) -> Result<RegionContent, OutOfMemory>
    ensures { IfOk result (λ copy. copy ≡ region.now) }
{
    Ok(RegionContent {
        visibility: region.visibility,
        is_static: region.is_static,
        name: region.name.clone()?,
        parent: copied_name(&region.parent)?,
    })
}

fn copied_holder(holder: &LockHolder) -> Result<LockHolder, OutOfMemory>
    ensures { IfOk result (λ copy. copy ≡ holder.now) }
{
    match holder {
        LockHolder::This => Ok(LockHolder::This),
        LockHolder::Class => Ok(LockHolder::Class),
        LockHolder::Field(name) => Ok(LockHolder::Field(name.clone()?)),
        LockHolder::ThisField(name) => Ok(LockHolder::ThisField(name.clone()?)),
    }
}

fn copied_lock(lock: &RegionLockContent) -> Result<RegionLockContent, OutOfMemory>
    ensures { IfOk result (λ copy. copy ≡ lock.now) }
{
    Ok(RegionLockContent {
        name: lock.name.clone()?,
        holder: copied_holder(&lock.holder)?,
        region: lock.region.clone()?,
    })
}

fn copied_item(item: &LockItem) -> Result<LockItem, OutOfMemory>
    ensures { IfOk result (λ copy. copy ≡ item.now) }
{
    match item {
        LockItem::Bare(name) => Ok(LockItem::Bare(name.clone()?)),
        LockItem::This(name) => Ok(LockItem::This(name.clone()?)),
        LockItem::Of { owner, lock } => Ok(LockItem::Of {
            owner: owner.clone()?,
            lock: lock.clone()?,
        }),
    }
}

fn copied_items(alloc: Global, items: &[LockItem]) -> Result<Items<LockItem>, OutOfMemory>
    ensures { IfOk result (λ copy. copy ≡ items.now) }
{
    let mut copies = Items::new(alloc);
    for item in items {
        copies.push(copied_item(item)?)?;
    }
    Ok(copies)
}

fn copied_target(target: &EffectTarget) -> Result<EffectTarget, OutOfMemory>
    ensures { IfOk result (λ copy. copy ≡ target.now) }
{
    match target {
        EffectTarget::Bare(name) => Ok(EffectTarget::Bare(name.clone()?)),
        EffectTarget::This(name) => Ok(EffectTarget::This(name.clone()?)),
        EffectTarget::Of { owner, region } => Ok(EffectTarget::Of {
            owner: owner.clone()?,
            region: region.clone()?,
        }),
        EffectTarget::Any { class, region } => Ok(EffectTarget::Any {
            class: class.clone()?,
            region: region.clone()?,
        }),
    }
}

fn copied_targets(
    alloc: Global,
    targets: &[EffectTarget],
) -> Result<Items<EffectTarget>, OutOfMemory>
    ensures { IfOk result (λ copy. copy ≡ targets.now) }
{
    let mut copies = Items::new(alloc);
    for target in targets {
        copies.push(copied_target(target)?)?;
    }
    Ok(copies)
}

fn copied_effects(alloc: Global, effects: &EffectsContent) -> Result<EffectsContent, OutOfMemory>
    ensures { IfOk result (λ copy. copy ≡ effects.now) }
{
    Ok(EffectsContent {
        reads: copied_targets(alloc, effects.reads.as_slice())?,
        writes: copied_targets(alloc, effects.writes.as_slice())?,
    })
}

/// A copy of a content that holds no other one, as all contents that are spread or assumed are;
/// `None` for a content that holds another one.
pub fn copied(alloc: Global, tree: &PromiseTree) -> Result<Option<PromiseTree>, OutOfMemory>
    ensures { IfOk result (λ copy. copy ≡ spec.flat tree.now) }
{
    let copy = match tree {
        PromiseTree::Region(region) => PromiseTree::Region(copied_region(region)?),
        PromiseTree::InRegion(name) => PromiseTree::InRegion(name.clone()?),
        PromiseTree::RegionLock(lock) => PromiseTree::RegionLock(copied_lock(lock)?),
        PromiseTree::RequiresLock(items) => {
            PromiseTree::RequiresLock(copied_items(alloc, items.as_slice())?)
        }
        PromiseTree::Unique(content) => PromiseTree::Unique(*content),
        PromiseTree::Borrowed(content) => PromiseTree::Borrowed(*content),
        PromiseTree::RegionEffects(effects) => {
            PromiseTree::RegionEffects(copied_effects(alloc, effects)?)
        }
        PromiseTree::Starts => PromiseTree::Starts,
        PromiseTree::Vouch(text) => PromiseTree::Vouch(text.clone()?),
        PromiseTree::Promise(_, _) | PromiseTree::Assume(_, _) => return Ok(None),
    };
    Ok(Some(copy))
}
