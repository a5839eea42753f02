ghost use Rattle.std.specs.Prelude.{◌≡◌};
ghost use Rattle.promise_grammar.specs.Outcome.{Reads, Answers};
ghost use Rattle.promise_grammar.specs.Reading as read;

use crate::error::PromiseError;
use crate::pieces::Pieces;
use crate::split::split_first;
use crate::word::is_name;
use desk_base::{Bytes, Name};
use std::alloc::Global;

/// Which names a scoped promise means: one name, any name (`*`), or the names that begin with the
/// first `at` bytes of `name` and end with its other bytes, with anything between (`na*me`).
#[derive(Debug, PartialEq, Eq, Drop)]
pub enum NamePattern {
    Exactly(Name),
    Any,
    Starred { name: Name, at: usize },
}

/// What a scoped promise is for: fields (`W`), methods (`W(**)`), methods without parameters
/// (`W()`), or the constructors (`new(**)`).
#[derive(Debug, PartialEq, Eq, Drop)]
pub enum ScopeContent {
    Fields(NamePattern),
    Methods(NamePattern),
    PlainMethods(NamePattern),
    Constructors,
}

#[tactic(auto, unfolding(crate::specs::Reading::exact_pattern))]
fn exact_pattern(alloc: Global, word: &[u8]) -> Result<NamePattern, PromiseError>
    ensures { Answers (read.exact_pattern word.now) result }
{
    if !is_name(word) {
        return Err(PromiseError::Grammar);
    }
    Ok(NamePattern::Exactly(Name::from_slice(alloc, word)?))
}

/// The pattern whose star stands between these two parts.
#[tactic(auto, unfolding(crate::specs::Reading::starred_pattern))]
fn starred_pattern(alloc: Global, before: &[u8], after: &[u8]) -> Result<NamePattern, PromiseError>
    ensures { Answers (read.starred_pattern before.now after.now) result }
{
    if before.is_empty() && after.is_empty() {
        return Ok(NamePattern::Any);
    }
    let mut bytes = Bytes::from_slice(alloc, before)?;
    bytes.append(after)?;
    if !is_name(bytes.as_slice()) {
        return Err(PromiseError::Grammar);
    }
    let name = Name::from_bytes(bytes);
    Ok(NamePattern::Starred {
        name,
        at: before.len(),
    })
}

#[tactic(auto, unfolding(crate::specs::Reading::pattern))]
fn pattern(alloc: Global, word: &[u8]) -> Result<NamePattern, PromiseError>
    ensures { Answers (read.pattern word.now) result }
{
    match split_first(b'*', word) {
        None => exact_pattern(alloc, word),
        Some((before, after)) => starred_pattern(alloc, before, after),
    }
}

#[tactic(auto, unfolding(crate::specs::Reading::constructors))]
fn constructors(pieces: &mut Pieces<'_>) -> Result<ScopeContent, PromiseError>
    ensures { Reads (read.constructors pieces.old) result pieces.new }
{
    pieces.expect_sign(b'(')?;
    pieces.expect_word(b"**")?;
    pieces.expect_sign(b')')?;
    Ok(ScopeContent::Constructors)
}

#[tactic(auto, unfolding(crate::specs::Reading::members))]
fn members(pattern: NamePattern, pieces: &mut Pieces<'_>) -> Result<ScopeContent, PromiseError>
    ensures { Reads (read.members pattern pieces.old) result pieces.new }
{
    if !pieces.eat_sign(b'(') {
        return Ok(ScopeContent::Fields(pattern));
    }
    if pieces.eat_word(b"**") {
        pieces.expect_sign(b')')?;
        Ok(ScopeContent::Methods(pattern))
    } else {
        pieces.expect_sign(b')')?;
        Ok(ScopeContent::PlainMethods(pattern))
    }
}

/// Reads what a scoped promise is for.
#[tactic(auto, unfolding(crate::specs::Reading::scope))]
pub fn scope(alloc: Global, pieces: &mut Pieces<'_>) -> Result<ScopeContent, PromiseError>
    ensures { Reads (read.scope pieces.old) result pieces.new }
{
    let word = pieces.word()?;
    if word == b"new".as_slice() {
        return constructors(pieces);
    }
    let pattern = pattern(alloc, word)?;
    members(pattern, pieces)
}
