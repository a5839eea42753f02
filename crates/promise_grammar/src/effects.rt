ghost use Rattle.std.specs.Prelude.{◌≡◌, ◌↔◌, IsTrue};
ghost use Rattle.std.specs.Cmp.{decided, partial_equiv_from_equiv};
ghost use Rattle.promise_grammar.specs.Same as spec;
ghost use Rattle.promise_grammar.specs.Outcome.{Found, Reads};
ghost use Rattle.promise_grammar.specs.Reading as read;

use crate::error::PromiseError;
use crate::names::name;
use crate::pieces::Pieces;
use desk_base::{Items, Name};
use std::alloc::Global;

/// A region that is read or written: `region`, `this:region`, `owner:region` or
/// `any(class):region`.
#[derive(Debug, PartialEq, Eq, Drop)]
pub enum EffectTarget {
    Bare(Name),
    This(Name),
    Of { owner: Name, region: Name },
    Any { class: Name, region: Name },
}

/// `none`, `reads targets`, `writes targets`, or `reads targets; writes targets`. A list that
/// isn't written is empty.
#[derive(Debug, Drop)]
pub struct EffectsContent {
    pub reads: Items<EffectTarget>,
    pub writes: Items<EffectTarget>,
}

fn same_effects(one: &EffectsContent, other: &EffectsContent) -> bool
    ensures { result ≡ spec.same_effects one.now other.now }
{
    one.reads.as_slice() == other.reads.as_slice()
        && one.writes.as_slice() == other.writes.as_slice()
}

impl PartialEq for EffectsContent {
    ghost eq = { spec.same_effects };

    ghost laws = { partial_equiv_from_equiv (decided spec.same_effects spec.effects_decides) };

    /// True exactly where the two are equal.
    fn eq(&self, other: &EffectsContent) -> bool
        ensures value { result ≡ spec.same_effects self.now other.now }
        ensures exact { IsTrue result ↔ (self.now ≡ other.now) }
    {
        same_effects(self, other)
    }
}

impl Eq for EffectsContent {
    ghost laws = { decided spec.same_effects spec.effects_decides };
}

/// Reads what follows `any` and its parenthesis.
#[tactic(auto, unfolding(crate::specs::Reading::any_target))]
fn any_target(alloc: Global, pieces: &mut Pieces<'_>) -> Result<EffectTarget, PromiseError>
    ensures { Reads (read.any_target pieces.old) result pieces.new }
{
    let class = name(alloc, pieces)?;
    pieces.expect_sign(b')')?;
    pieces.expect_sign(b':')?;
    let region = name(alloc, pieces)?;
    Ok(EffectTarget::Any { class, region })
}

/// Reads what follows a name that isn't `this`.
#[tactic(auto, unfolding(crate::specs::Reading::named_target))]
fn named_target(
    alloc: Global,
    first: Name,
    pieces: &mut Pieces<'_>,
) -> Result<EffectTarget, PromiseError>
    ensures { Reads (read.named_target first pieces.old) result pieces.new }
{
    if pieces.eat_sign(b'(') {
        if first.as_slice() == b"any".as_slice() {
            return any_target(alloc, pieces);
        }
        return Err(PromiseError::Grammar);
    }
    if pieces.eat_sign(b':') {
        let region = name(alloc, pieces)?;
        Ok(EffectTarget::Of {
            owner: first,
            region,
        })
    } else {
        Ok(EffectTarget::Bare(first))
    }
}

#[tactic(auto, unfolding(crate::specs::Reading::target))]
fn target(alloc: Global, pieces: &mut Pieces<'_>) -> Result<EffectTarget, PromiseError>
    ensures { Reads (read.target pieces.old) result pieces.new }
{
    if pieces.eat_word(b"this") {
        pieces.expect_sign(b':')?;
        return Ok(EffectTarget::This(name(alloc, pieces)?));
    }
    let first = name(alloc, pieces)?;
    named_target(alloc, first, pieces)
}

fn targets(alloc: Global, pieces: &mut Pieces<'_>) -> Result<Items<EffectTarget>, PromiseError>
    ensures { Reads (read.separated read.target pieces.old) result pieces.new }
{
    let mut found = Items::new(alloc);
    loop {
        found.push(target(alloc, pieces)?)?;
        if !pieces.eat_sign(b',') {
            return Ok(found);
        }
    }
}

/// Reads what may follow the list of what is read.
#[tactic(auto, unfolding(crate::specs::Reading::more_writes))]
fn more_writes(alloc: Global, pieces: &mut Pieces<'_>) -> Result<Items<EffectTarget>, PromiseError>
    ensures { Reads (read.more_writes pieces.old) result pieces.new }
{
    if pieces.eat_sign(b';') {
        pieces.expect_word(b"writes")?;
        targets(alloc, pieces)
    } else {
        Ok(Items::new(alloc))
    }
}

/// Reads what a member may read and write.
#[tactic(auto, unfolding(crate::specs::Reading::effects))]
pub fn effects(alloc: Global, pieces: &mut Pieces<'_>) -> Result<EffectsContent, PromiseError>
    ensures { Reads (read.effects pieces.old) result pieces.new }
{
    if pieces.eat_word(b"reads") {
        let reads = targets(alloc, pieces)?;
        let writes = more_writes(alloc, pieces)?;
        return Ok(EffectsContent { reads, writes });
    }
    let reads = Items::new(alloc);
    if pieces.eat_word(b"writes") {
        let writes = targets(alloc, pieces)?;
        return Ok(EffectsContent { reads, writes });
    }
    pieces.expect_word(b"none")?;
    let writes = Items::new(alloc);
    Ok(EffectsContent { reads, writes })
}
