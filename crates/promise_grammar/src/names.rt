ghost use Rattle.std.specs.Prelude.{◌≡◌};
ghost use Rattle.promise_grammar.specs.Outcome as read;
ghost use Rattle.promise_grammar.specs.Outcome.{Reads};

use crate::error::PromiseError;
use crate::pieces::Pieces;
use crate::word::is_name;
use desk_base::Name;
use std::alloc::Global;

/// Takes a name.
#[tactic(auto, unfolding(crate::specs::Outcome::name))]
pub fn name(alloc: Global, pieces: &mut Pieces<'_>) -> Result<Name, PromiseError>
    ensures { Reads (read.name pieces.old) result pieces.new }
{
    let word = pieces.word()?;
    if !is_name(word) {
        return Err(PromiseError::Grammar);
    }
    Ok(Name::from_slice(alloc, word)?)
}
