ghost use Rattle.std.specs.Prelude.{◌≡◌};
ghost use Rattle.promise_grammar.specs.Outcome.{Found, Reads};
ghost use Rattle.promise_grammar.specs.Reading as read;

use crate::error::PromiseError;
use crate::names::name;
use crate::pieces::Pieces;
use desk_base::{Items, Name};
use std::alloc::Global;

/// What holds a lock: the object itself, its class, a field, or a field named through `this`.
#[derive(Debug, PartialEq, Eq, Drop)]
pub enum LockHolder {
    This,
    Class,
    Field(Name),
    ThisField(Name),
}

/// `name is holder protects region`.
#[derive(Debug, PartialEq, Eq, Drop)]
pub struct RegionLockContent {
    pub name: Name,
    pub holder: LockHolder,
    pub region: Name,
}

/// A lock that is held by the caller: `lock`, `this:lock` or `owner:lock`.
#[derive(Debug, PartialEq, Eq, Drop)]
pub enum LockItem {
    Bare(Name),
    This(Name),
    Of { owner: Name, lock: Name },
}

/// Reads what follows `this`.
#[tactic(auto, unfolding(crate::specs::Reading::this_holder))]
fn this_holder(alloc: Global, pieces: &mut Pieces<'_>) -> Result<LockHolder, PromiseError>
    ensures { Reads (read.this_holder pieces.old) result pieces.new }
{
    if pieces.eat_sign(b'.') {
        Ok(LockHolder::ThisField(name(alloc, pieces)?))
    } else {
        Ok(LockHolder::This)
    }
}

#[tactic(auto, unfolding(crate::specs::Reading::holder))]
fn holder(alloc: Global, pieces: &mut Pieces<'_>) -> Result<LockHolder, PromiseError>
    ensures { Reads (read.holder pieces.old) result pieces.new }
{
    if pieces.eat_word(b"class") {
        Ok(LockHolder::Class)
    } else if pieces.eat_word(b"this") {
        this_holder(alloc, pieces)
    } else {
        Ok(LockHolder::Field(name(alloc, pieces)?))
    }
}

/// Reads a lock's declaration.
#[tactic(auto, unfolding(crate::specs::Reading::region_lock))]
pub fn region_lock(
    alloc: Global,
    pieces: &mut Pieces<'_>,
) -> Result<RegionLockContent, PromiseError>
    ensures { Reads (read.region_lock pieces.old) result pieces.new }
{
    let lock = name(alloc, pieces)?;
    pieces.expect_word(b"is")?;
    let holder = holder(alloc, pieces)?;
    pieces.expect_word(b"protects")?;
    let region = name(alloc, pieces)?;
    Ok(RegionLockContent {
        name: lock,
        holder,
        region,
    })
}

#[tactic(auto, unfolding(crate::specs::Reading::lock_item))]
fn lock_item(alloc: Global, pieces: &mut Pieces<'_>) -> Result<LockItem, PromiseError>
    ensures { Reads (read.lock_item pieces.old) result pieces.new }
{
    if pieces.eat_word(b"this") {
        pieces.expect_sign(b':')?;
        return Ok(LockItem::This(name(alloc, pieces)?));
    }
    let first = name(alloc, pieces)?;
    if pieces.eat_sign(b':') {
        let lock = name(alloc, pieces)?;
        Ok(LockItem::Of { owner: first, lock })
    } else {
        Ok(LockItem::Bare(first))
    }
}

/// Reads a list of locks, of one at least.
pub fn lock_items(alloc: Global, pieces: &mut Pieces<'_>) -> Result<Items<LockItem>, PromiseError>
    ensures { Reads (read.separated read.lock_item pieces.old) result pieces.new }
{
    let mut found = Items::new(alloc);
    loop {
        found.push(lock_item(alloc, pieces)?)?;
        if !pieces.eat_sign(b',') {
            return Ok(found);
        }
    }
}
