//! Reading a type as it is written.

ghost use Rattle.java_phrases.specs.Cursor.{Steps};
ghost use Rattle.java_phrases.specs.Types as spec;

use crate::error::SyntaxError;
use crate::tokens::Tokens;
use java_tree::{Kind, Ty};
use std::alloc::Global;

/// Reads `int`, `boolean` or a name (JLS 8, 4.1, as far as the subset goes).
#[tactic(auto, unfolding(crate::specs::Types::ty))]
pub fn read_type(alloc: Global, tokens: &mut Tokens) -> Result<Ty, SyntaxError>
    ensures { Steps spec.ty tokens.old result tokens.new }
{
    match tokens.peek() {
        Some(Kind::IntType) => Ok(Ty::Int(tokens.sign(Kind::IntType)?)),
        Some(Kind::BooleanType) => Ok(Ty::Boolean(tokens.sign(Kind::BooleanType)?)),
        _ => Ok(Ty::Named(tokens.word(alloc, Kind::Name)?)),
    }
}
