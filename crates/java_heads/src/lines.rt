//! The package line and the import lines.

ghost use Rattle.std.specs.Prelude.{◌≡◌};
ghost use Rattle.java_phrases.specs.Cursor.{Steps};
ghost use Rattle.java_heads.specs.Reading as spec;

use crate::names::read_qualified;
use desk_base::Span;
use java_phrases::{SyntaxError, Tokens};
use java_tree::{Import, Kind, Package};
use std::alloc::Global;

#[tactic(auto, unfolding(crate::specs::Reading::package_line))]
pub(crate) fn package_line(alloc: Global, tokens: &mut Tokens) -> Result<Package, SyntaxError>
    ensures { Steps spec.package_line tokens.old result tokens.new }
{
    tokens.sign(Kind::Package)?;
    let name = read_qualified(alloc, tokens)?;
    tokens.sign(Kind::Semicolon)?;
    Ok(Package { name })
}

/// Reads a sign or word of this kind, if it stands next.
#[tactic(auto, unfolding(crate::specs::Reading::perhaps))]
pub(crate) fn read_perhaps(tokens: &mut Tokens, kind: Kind) -> Result<Option<Span>, SyntaxError>
    ensures { Steps (spec.perhaps kind) tokens.old result tokens.new }
{
    if tokens.sees(kind) {
        Ok(Some(tokens.sign(kind)?))
    } else {
        Ok(None)
    }
}

#[tactic(auto, unfolding(crate::specs::Reading::star))]
fn star(tokens: &mut Tokens) -> Result<Option<Span>, SyntaxError>
    ensures { Steps spec.star tokens.old result tokens.new }
{
    if tokens.sees(Kind::Dot) {
        tokens.sign(Kind::Dot)?;
        Ok(Some(tokens.sign(Kind::Times)?))
    } else {
        Ok(None)
    }
}

#[tactic(auto, unfolding(crate::specs::Reading::import_line))]
pub(crate) fn import_line(alloc: Global, tokens: &mut Tokens) -> Result<Import, SyntaxError>
    ensures { Steps spec.import_line tokens.old result tokens.new }
{
    tokens.sign(Kind::Import)?;
    let static_word = read_perhaps(tokens, Kind::Static)?;
    let name = read_qualified(alloc, tokens)?;
    let star = star(tokens)?;
    tokens.sign(Kind::Semicolon)?;
    Ok(Import {
        static_word,
        name,
        star,
    })
}
