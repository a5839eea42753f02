//! The contents of promises as they are written.

use crate::surfaces::put_bytes;
use anyhow::Result;
use desk_base::Name;
use promise_grammar::{
    BorrowedContent, EffectTarget, EffectsContent, LockHolder, LockItem, PromiseTree,
    RegionContent, RegionLockContent, UniqueContent, Visibility,
};

fn put_pair(out: &mut String, owner: &Name, name: &Name) -> Result<()> {
    put_bytes(out, owner.as_slice())?;
    out.push_str(":")?;
    put_bytes(out, name.as_slice())
}

fn visibility_text(visibility: Option<Visibility>) -> &'static str {
    match visibility {
        Some(Visibility::Public) => "public ",
        Some(Visibility::Protected) => "protected ",
        Some(Visibility::Private) => "private ",
        None => "",
    }
}

fn put_region(out: &mut String, region: &RegionContent) -> Result<()> {
    out.push_str(visibility_text(region.visibility))?;
    out.push_str(if region.is_static { "static " } else { "" })?;
    put_bytes(out, region.name.as_slice())?;
    if let Some(parent) = &region.parent {
        out.push_str(" extends ")?;
        put_bytes(out, parent.as_slice())?;
    }
    Ok(())
}

fn put_holder(out: &mut String, holder: &LockHolder) -> Result<()> {
    match holder {
        LockHolder::This => out.push_str("this")?,
        LockHolder::Class => out.push_str("class")?,
        LockHolder::Field(name) => put_bytes(out, name.as_slice())?,
        LockHolder::ThisField(name) => {
            out.push_str("this.")?;
            put_bytes(out, name.as_slice())?;
        }
    }
    Ok(())
}

fn put_lock(out: &mut String, lock: &RegionLockContent) -> Result<()> {
    put_bytes(out, lock.name.as_slice())?;
    out.push_str(" is ")?;
    put_holder(out, &lock.holder)?;
    out.push_str(" protects ")?;
    put_bytes(out, lock.region.as_slice())
}

fn put_item(out: &mut String, item: &LockItem) -> Result<()> {
    match item {
        LockItem::Bare(name) => put_bytes(out, name.as_slice()),
        LockItem::This(name) => {
            out.push_str("this:")?;
            put_bytes(out, name.as_slice())
        }
        LockItem::Of { owner, lock } => put_pair(out, owner, lock),
    }
}

fn put_items(out: &mut String, items: &[LockItem]) -> Result<()> {
    for (i, item) in items.iter().enumerate() {
        out.push_str(if i == 0 { "" } else { ", " })?;
        put_item(out, item)?;
    }
    Ok(())
}

fn put_target(out: &mut String, target: &EffectTarget) -> Result<()> {
    match target {
        EffectTarget::Bare(name) => put_bytes(out, name.as_slice()),
        EffectTarget::This(name) => {
            out.push_str("this:")?;
            put_bytes(out, name.as_slice())
        }
        EffectTarget::Of { owner, region } => put_pair(out, owner, region),
        EffectTarget::Any { class, region } => {
            out.push_str("any(")?;
            put_bytes(out, class.as_slice())?;
            out.push_str("):")?;
            put_bytes(out, region.as_slice())
        }
    }
}

fn put_targets(out: &mut String, word: &str, targets: &[EffectTarget]) -> Result<()> {
    for (i, target) in targets.iter().enumerate() {
        out.push_str(if i == 0 { word } else { ", " })?;
        put_target(out, target)?;
    }
    Ok(())
}

fn put_effects(out: &mut String, effects: &EffectsContent) -> Result<()> {
    if effects.reads.is_empty() && effects.writes.is_empty() {
        out.push_str("none")?;
        return Ok(());
    }
    put_targets(out, "reads ", effects.reads.as_slice())?;
    if !effects.reads.is_empty() && !effects.writes.is_empty() {
        out.push_str("; ")?;
    }
    put_targets(out, "writes ", effects.writes.as_slice())
}

/// The content of a promise that holds no other one, as it is written.
pub(crate) fn put_content(out: &mut String, tree: &PromiseTree) -> Result<()> {
    match tree {
        PromiseTree::Region(region) => put_region(out, region),
        PromiseTree::InRegion(name) => put_bytes(out, name.as_slice()),
        PromiseTree::RegionLock(lock) => put_lock(out, lock),
        PromiseTree::RequiresLock(items) => put_items(out, items.as_slice()),
        PromiseTree::Unique(UniqueContent::Place) => Ok(()),
        PromiseTree::Unique(UniqueContent::Return) => put_bytes(out, b"return"),
        PromiseTree::Borrowed(BorrowedContent::Place) => Ok(()),
        PromiseTree::Borrowed(BorrowedContent::This) => put_bytes(out, b"this"),
        PromiseTree::RegionEffects(effects) => put_effects(out, effects),
        PromiseTree::Starts => put_bytes(out, b"nothing"),
        PromiseTree::Vouch(text) => put_bytes(out, text.as_slice()),
        PromiseTree::Promise(_, _) => put_bytes(out, b"@Promise"),
        PromiseTree::Assume(_, _) => put_bytes(out, b"@Assume"),
    }
}
