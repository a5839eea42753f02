ghost use Rattle.std.specs.Prelude.{◌≡◌, [], ◌++◌, ◌∷◌};
ghost use Rattle.promise_grammar.specs.Outcome.{Reads, Answers, AnswersBy};
ghost use Rattle.promise_grammar.specs.Piece.{cut};
ghost use Rattle.promise_grammar.specs.Reading as read;

use crate::error::PromiseError;
use crate::kind::PromiseKind;
use crate::member::{MemberContent, member};
use crate::pieces::Pieces;
use crate::scope::{ScopeContent, scope};
use crate::split::{split_closing, split_first};
use std::alloc::Global;

/// What stands round the content of another promise.
#[derive(Drop)]
pub enum Layer {
    Promise(ScopeContent),
    Assume(MemberContent),
}

/// Reads `@` and the name of a kind.
#[tactic(auto, unfolding(crate::specs::Reading::annotation))]
fn annotation(pieces: &mut Pieces<'_>) -> Result<PromiseKind, PromiseError>
    ensures { Reads (read.annotation pieces.old) result pieces.new }
{
    pieces.expect_sign(b'@')?;
    let word = pieces.word()?;
    match PromiseKind::from_text(word) {
        Some(kind) => Ok(kind),
        None => Err(PromiseError::Grammar),
    }
}

/// Reads `for` and what the promise is for.
#[tactic(auto, unfolding(crate::specs::Reading::tail))]
fn tail(alloc: Global, kind: PromiseKind, pieces: &mut Pieces<'_>) -> Result<Layer, PromiseError>
    ensures { Reads (read.tail kind pieces.old) result pieces.new }
{
    match kind {
        PromiseKind::Promise => {
            pieces.expect_word(b"for")?;
            Ok(Layer::Promise(scope(alloc, pieces)?))
        }
        PromiseKind::Assume => {
            pieces.expect_word(b"for")?;
            Ok(Layer::Assume(member(alloc, pieces)?))
        }
        _ => Err(PromiseError::Grammar),
    }
}

fn whole_annotation(bytes: &[u8]) -> Result<PromiseKind, PromiseError>
    ensures { Answers (read.whole read.annotation (cut bytes.now)) result }
{
    let mut pieces = Pieces::new(bytes);
    let kind = annotation(&mut pieces)?;
    pieces.expect_end()?;
    Ok(kind)
}

fn whole_tail(alloc: Global, kind: PromiseKind, bytes: &[u8]) -> Result<Layer, PromiseError>
    ensures { Answers (read.whole (read.tail kind) (cut bytes.now)) result }
{
    let mut pieces = Pieces::new(bytes);
    let layer = tail(alloc, kind, &mut pieces)?;
    pieces.expect_end()?;
    Ok(layer)
}

/// The layer that has no content in parentheses, and the kind in it.
#[tactic(auto, unfolding(crate::specs::Reading::bare))]
fn bare(
    alloc: Global,
    kind: PromiseKind,
    content: &[u8],
) -> Result<(Layer, PromiseKind), PromiseError>
    ensures { AnswersBy (λ y. (y.0, y.1, [])) (read.whole (read.bare kind) (cut content.now)) result }
{
    let mut pieces = Pieces::new(content);
    let inner = annotation(&mut pieces)?;
    let layer = tail(alloc, kind, &mut pieces)?;
    pieces.expect_end()?;
    Ok((layer, inner))
}

/// The layer whose content in parentheses ends where it is split, and what is in it.
#[tactic(auto, unfolding(crate::specs::Reading::enclosing))]
fn enclosing<'a>(
    alloc: Global,
    kind: PromiseKind,
    front: &'a [u8],
    rest: &[u8],
) -> Result<(Layer, PromiseKind, &'a [u8]), PromiseError>
    ensures { AnswersBy (λ y. (y.0, y.1, y.2.now)) (read.enclosing kind front.now rest.now) result }
{
    match split_first(b'(', front) {
        None => Err(PromiseError::Grammar),
        Some((name, text)) => {
            let inner = whole_annotation(name)?;
            let layer = whole_tail(alloc, kind, rest)?;
            Ok((layer, inner, text))
        }
    }
}

/// The outermost layer of a content, the kind of the promise in it, and that one's content.
#[tactic(auto, unfolding(crate::specs::Reading::opened))]
pub fn opened(
    alloc: Global,
    kind: PromiseKind,
    content: &[u8],
) -> Result<(Layer, PromiseKind, &[u8]), PromiseError>
    ensures { AnswersBy (λ y. (y.0, y.1, y.2.now)) (read.opened kind content.now) result }
{
    match split_closing(content) {
        None => {
            let (layer, inner) = bare(alloc, kind, content)?;
            Ok((layer, inner, &[]))
        }
        Some((front, rest)) => enclosing(alloc, kind, front, rest),
    }
}
