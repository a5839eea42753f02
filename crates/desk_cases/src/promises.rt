//! Cases of `promise_grammar`: contents of promises, told in words of our own.

use crate::notation::text_of;
use crate::surfaces::put_bytes;
use crate::table::first_word;
use anyhow::{Context, Result};
use desk_base::Name;
use promise_grammar::{
    BorrowedContent, EffectTarget, EffectsContent, LockHolder, LockItem, MemberContent, MemberName,
    NamePattern, PromiseError, PromiseKind, PromiseTree, RegionContent, RegionLockContent,
    ScopeContent, UniqueContent, Visibility, read_promise,
};
use std::alloc::Global;

fn put_name(out: &mut String, before: &str, name: &Name) -> Result<()> {
    out.push_str(before)?;
    put_bytes(out, name.as_slice())
}

fn put_pair(out: &mut String, first: &Name, sign: &str, second: &Name) -> Result<()> {
    put_bytes(out, first.as_slice())?;
    put_name(out, sign, second)
}

fn put_region(out: &mut String, region: &RegionContent) -> Result<()> {
    out.push_str(match region.visibility {
        None => "region ",
        Some(Visibility::Public) => "region public ",
        Some(Visibility::Protected) => "region protected ",
        Some(Visibility::Private) => "region private ",
    })?;
    put_name(
        out,
        if region.is_static { "static " } else { "" },
        &region.name,
    )?;
    match &region.parent {
        None => Ok(()),
        Some(parent) => put_name(out, " under ", parent),
    }
}

fn put_lock(out: &mut String, lock: &RegionLockContent) -> Result<()> {
    put_pair(out, &lock.name, " for ", &lock.region)?;
    match &lock.holder {
        LockHolder::This => put_bytes(out, b" by the object"),
        LockHolder::Class => put_bytes(out, b" by the class"),
        LockHolder::Field(name) => put_name(out, " by field ", name),
        LockHolder::ThisField(name) => put_name(out, " by own field ", name),
    }
}

fn put_item(out: &mut String, item: &LockItem) -> Result<()> {
    match item {
        LockItem::Bare(lock) => put_bytes(out, lock.as_slice()),
        LockItem::This(lock) => put_name(out, "own ", lock),
        LockItem::Of { owner, lock } => put_pair(out, owner, "'s ", lock),
    }
}

fn put_items(out: &mut String, items: &[LockItem]) -> Result<()> {
    out.push_str("locks")?;
    for item in items {
        out.push_str(" [")?;
        put_item(out, item)?;
        out.push(']')?;
    }
    Ok(())
}

fn put_target(out: &mut String, target: &EffectTarget) -> Result<()> {
    match target {
        EffectTarget::Bare(region) => put_bytes(out, region.as_slice()),
        EffectTarget::This(region) => put_name(out, "own ", region),
        EffectTarget::Of { owner, region } => put_pair(out, owner, "'s ", region),
        EffectTarget::Any { class, region } => put_pair(out, class, " any ", region),
    }
}

fn put_targets(out: &mut String, word: &str, targets: &[EffectTarget]) -> Result<()> {
    out.push_str(word)?;
    for target in targets {
        out.push_str(" [")?;
        put_target(out, target)?;
        out.push(']')?;
    }
    Ok(())
}

fn put_effects(out: &mut String, effects: &EffectsContent) -> Result<()> {
    put_targets(out, "reads", effects.reads.as_slice())?;
    put_targets(out, " writes", effects.writes.as_slice())
}

fn put_starred(out: &mut String, name: &Name, at: usize) -> Result<()> {
    let (before, after) = name.as_slice().split_at(at.min(name.len()));
    put_bytes(out, before)?;
    out.push_str("..")?;
    put_bytes(out, after)
}

fn put_pattern(out: &mut String, before: &str, pattern: &NamePattern) -> Result<()> {
    out.push_str(before)?;
    match pattern {
        NamePattern::Exactly(name) => put_bytes(out, name.as_slice()),
        NamePattern::Any => put_bytes(out, b"any name"),
        NamePattern::Starred { name, at } => put_starred(out, name, *at),
    }
}

fn put_scope(out: &mut String, scope: &ScopeContent) -> Result<()> {
    match scope {
        ScopeContent::Fields(pattern) => put_pattern(out, " for fields ", pattern),
        ScopeContent::Methods(pattern) => put_pattern(out, " for methods ", pattern),
        ScopeContent::PlainMethods(pattern) => put_pattern(out, " for plain methods ", pattern),
        ScopeContent::Constructors => put_bytes(out, b" for constructors"),
    }
}

fn put_member(out: &mut String, member: &MemberContent) -> Result<()> {
    put_name(out, " of ", &member.class)?;
    match &member.name {
        MemberName::Named(name) => put_name(out, " method ", name)?,
        MemberName::New => out.push_str(" constructor")?,
    }
    write!(out, " with {}", member.count)?;
    Ok(())
}

fn put_tree(out: &mut String, tree: &PromiseTree) -> Result<()> {
    match tree {
        PromiseTree::Region(region) => put_region(out, region),
        PromiseTree::InRegion(name) => put_name(out, "in ", name),
        PromiseTree::RegionLock(lock) => put_lock(out, lock),
        PromiseTree::RequiresLock(items) => put_items(out, items.as_slice()),
        PromiseTree::Unique(UniqueContent::Place) => put_bytes(out, b"unique"),
        PromiseTree::Unique(UniqueContent::Return) => put_bytes(out, b"unique result"),
        PromiseTree::Borrowed(BorrowedContent::Place) => put_bytes(out, b"borrowed"),
        PromiseTree::Borrowed(BorrowedContent::This) => put_bytes(out, b"borrowed object"),
        PromiseTree::RegionEffects(effects) => put_effects(out, effects),
        PromiseTree::Starts => put_bytes(out, b"starts"),
        PromiseTree::Promise(inner, scope) => {
            out.push('{')?;
            put_tree(out, inner.get())?;
            out.push('}')?;
            put_scope(out, scope)
        }
        PromiseTree::Assume(inner, member) => {
            out.push('{')?;
            put_tree(out, inner.get())?;
            out.push('}')?;
            put_member(out, member)
        }
        PromiseTree::Vouch(text) => {
            out.push_str("text ")?;
            put_bytes(out, text.as_slice())
        }
    }
}

// How many scopes stand one in another.
fn layers_of(tree: &PromiseTree) -> usize {
    let mut layers: usize = 0;
    let mut at = tree;
    while let PromiseTree::Promise(inner, _) = at {
        layers = layers.saturating_add(1);
        at = inner.get();
    }
    layers
}

fn put_layers(out: &mut String, tree: &PromiseTree, len: usize) -> Result<()> {
    write!(out, "{} layers in {len} bytes", layers_of(tree))?;
    Ok(())
}

/// What a content of the heading's kind says, or only how many layers it has; nothing where it isn't
/// spelled.
pub(crate) fn put_case(alloc: Global, out: &mut String, words: &str, line: &str) -> Result<()> {
    let (kind, more) = first_word(words);
    let kind = PromiseKind::from_text(kind.as_bytes()).context("no kind of promise")?;
    let text = text_of(alloc, line)?;
    match read_promise(alloc, kind, text.as_slice()) {
        Ok(tree) if more == "in layers" => put_layers(out, &tree, text.len()),
        Ok(tree) => put_tree(out, &tree),
        Err(PromiseError::Grammar) => put_bytes(out, b"not spelled"),
        Err(PromiseError::OutOfMemory) => put_bytes(out, b"out of memory"),
    }
}
