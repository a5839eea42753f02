ghost use Rattle.std.specs.Prelude.{◌≡◌};
ghost use Rattle.promise_grammar.specs.Outcome.{Found, Reads};
ghost use Rattle.promise_grammar.specs.Reading as read;

use crate::pieces::Pieces;

/// What is unique: the place itself, or what the member returns (`return`).
#[derive(Clone, Copy, Debug, PartialEq, Eq)]
pub enum UniqueContent {
    Place,
    Return,
}

/// What is borrowed: the parameter itself, or `this`.
#[derive(Clone, Copy, Debug, PartialEq, Eq)]
pub enum BorrowedContent {
    Place,
    This,
}

/// Reads nothing, or `return`.
#[tactic(auto, unfolding(crate::specs::Reading::unique))]
pub fn unique(pieces: &mut Pieces<'_>) -> UniqueContent
    ensures { read.unique pieces.old ≡ Found result pieces.new }
{
    if pieces.eat_word(b"return") {
        UniqueContent::Return
    } else {
        UniqueContent::Place
    }
}

/// Reads nothing, or `this`.
#[tactic(auto, unfolding(crate::specs::Reading::borrowed))]
pub fn borrowed(pieces: &mut Pieces<'_>) -> BorrowedContent
    ensures { read.borrowed pieces.old ≡ Found result pieces.new }
{
    if pieces.eat_word(b"this") {
        BorrowedContent::This
    } else {
        BorrowedContent::Place
    }
}
