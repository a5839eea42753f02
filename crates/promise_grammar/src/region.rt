ghost use Rattle.std.specs.Prelude.{◌≡◌};
ghost use Rattle.promise_grammar.specs.Outcome.{Found, Reads};
ghost use Rattle.promise_grammar.specs.Reading as read;

use crate::error::PromiseError;
use crate::names::name;
use crate::pieces::Pieces;
use desk_base::Name;
use std::alloc::Global;

/// The visibility word of a region.
#[derive(Clone, Copy, Debug, PartialEq, Eq)]
pub enum Visibility {
    Public,
    Protected,
    Private,
}

/// `[public|protected|private] [static] name [extends parent]`.
#[derive(Debug, PartialEq, Eq, Drop)]
pub struct RegionContent {
    pub visibility: Option<Visibility>,
    pub is_static: bool,
    pub name: Name,
    pub parent: Option<Name>,
}

#[tactic(auto, unfolding(crate::specs::Reading::visibility))]
fn visibility_word(pieces: &mut Pieces<'_>) -> Option<Visibility>
    ensures { read.visibility pieces.old ≡ Found result pieces.new }
{
    if pieces.eat_word(b"public") {
        Some(Visibility::Public)
    } else if pieces.eat_word(b"protected") {
        Some(Visibility::Protected)
    } else if pieces.eat_word(b"private") {
        Some(Visibility::Private)
    } else {
        None
    }
}

#[tactic(auto, unfolding(crate::specs::Reading::parent))]
fn parent(alloc: Global, pieces: &mut Pieces<'_>) -> Result<Option<Name>, PromiseError>
    ensures { Reads (read.parent pieces.old) result pieces.new }
{
    if pieces.eat_word(b"extends") {
        Ok(Some(name(alloc, pieces)?))
    } else {
        Ok(None)
    }
}

/// Reads a region's declaration.
#[tactic(auto, unfolding(crate::specs::Reading::region))]
pub fn region(alloc: Global, pieces: &mut Pieces<'_>) -> Result<RegionContent, PromiseError>
    ensures { Reads (read.region pieces.old) result pieces.new }
{
    let visibility = visibility_word(pieces);
    let is_static = pieces.eat_word(b"static");
    let name = name(alloc, pieces)?;
    let parent = parent(alloc, pieces)?;
    Ok(RegionContent {
        visibility,
        is_static,
        name,
        parent,
    })
}
