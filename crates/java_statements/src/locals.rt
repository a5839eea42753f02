//! Declarations of locals.

ghost use Rattle.std.specs.Prelude.{◌≡◌};
ghost use Rattle.java_statements.specs.Reading as spec;
ghost use Rattle.java_phrases.specs.Cursor.{ahead, Steps};

use crate::actions::value;
use desk_base::Span;
use java_phrases::{SyntaxError, Tokens, read_type};
use java_tree::{BlockItem, Kind, Lexeme, Local, Ty};
use std::alloc::Global;

/// Whether a local's declaration stands next: it begins with `final`, `int`, `boolean` or two names.
#[tactic(auto, unfolding(crate::specs::Reading::begins_local))]
pub(crate) fn begins_local(tokens: &Tokens) -> bool
    ensures { result ≡ spec.begins_local (ahead tokens.now) }
{
    match (tokens.peek(), tokens.kind_at(1)) {
        (Some(Kind::Final), _) => true,
        (Some(Kind::IntType), _) => true,
        (Some(Kind::BooleanType), _) => true,
        (Some(Kind::Name), Some(Kind::Name)) => true,
        _ => false,
    }
}

#[tactic(auto, unfolding(crate::specs::Reading::final_read))]
fn final_word(tokens: &mut Tokens) -> Result<Option<Span>, SyntaxError>
    ensures { Steps spec.final_read tokens.old result tokens.new }
{
    if tokens.sees(Kind::Final) {
        Ok(Some(tokens.sign(Kind::Final)?))
    } else {
        Ok(None)
    }
}

/// The initializer of a local of this type and name.
fn local_set(
    alloc: Global,
    tokens: &mut Tokens,
    room: u8,
    final_word: Option<Span>,
    ty: Ty,
    name: Lexeme,
) -> Result<Local, SyntaxError>
    ensures { Steps (spec.local_set room final_word ty name) tokens.old result tokens.new }
{
    tokens.sign(Kind::Assign)?;
    let value = value(alloc, tokens, room)?;
    Ok(Local {
        final_word,
        ty,
        name,
        value,
    })
}

/// A local's declaration without its semicolon.
#[tactic(auto, unfolding(crate::specs::Reading::local))]
pub(crate) fn local(alloc: Global, tokens: &mut Tokens, room: u8) -> Result<Local, SyntaxError>
    ensures { Steps (spec.local room) tokens.old result tokens.new }
{
    let final_word = final_word(tokens)?;
    let ty = read_type(alloc, tokens)?;
    let name = tokens.word(alloc, Kind::Name)?;
    local_set(alloc, tokens, room, final_word, ty, name)
}

#[tactic(auto, unfolding(crate::specs::Reading::declaration_within))]
fn declaration_within(
    alloc: Global,
    tokens: &mut Tokens,
    room: u8,
) -> Result<BlockItem, SyntaxError>
    ensures { Steps (spec.declaration_within room) tokens.old result tokens.new }
{
    let found = local(alloc, tokens, room)?;
    let at = tokens.sign(Kind::Semicolon)?;
    Ok(BlockItem::Local(found, at))
}

/// A local's declaration with at most `limit` nodes on a path.
pub(crate) fn declaration(
    alloc: Global,
    tokens: &mut Tokens,
    limit: u8,
) -> Result<BlockItem, SyntaxError>
    ensures { Steps (spec.declaration limit) tokens.old result tokens.new }
{
    if limit == 0 {
        return Err(SyntaxError::NotSpelled);
    }
    declaration_within(alloc, tokens, limit - 1)
}
