//! What stands between a method's name and its body: parameters and what it throws.

ghost use Rattle.std.specs.Prelude.{◌≡◌};
ghost use Rattle.java_tree.specs.declared.kind.Kind.TheVariants as k;
ghost use Rattle.java_phrases.specs.Parser.{sees, turns};
ghost use Rattle.java_phrases.specs.Cursor.{Steps};
ghost use Rattle.java_heads.specs.Reading as spec;

use crate::declaration::Declaration;
use crate::modifiers::read_modifiers;
use crate::names::read_qualified;
use desk_base::Items;
use java_phrases::{SyntaxError, Tokens, read_type};
use java_tree::{Kind, Lexeme, Param, Ty};
use std::alloc::Global;

/// How many parameters a method or constructor has at most (JVMS 8, 4.3.3).
const PARAMETER_LIMIT: usize = 255;

#[tactic(auto, unfolding(crate::specs::Reading::parameter))]
fn parameter(alloc: Global, tokens: &mut Tokens) -> Result<Param, SyntaxError>
    ensures { Steps spec.parameter tokens.old result tokens.new }
{
    let mods = read_modifiers(alloc, tokens, Declaration::Param)?;
    let ty = read_type(alloc, tokens)?;
    let name = tokens.word(alloc, Kind::Name)?;
    Ok(Param { mods, ty, name })
}

#[tactic(auto, unfolding(crate::specs::Reading::after))]
fn parameter_after(
    alloc: Global,
    tokens: &mut Tokens,
    found: Items<Param>,
) -> Result<Items<Param>, SyntaxError>
    ensures { Steps (spec.after k.Comma spec.parameter found) tokens.old result tokens.new }
{
    let mut found = found;
    tokens.sign(Kind::Comma)?;
    found.push(parameter(alloc, tokens)?)?;
    Ok(found)
}

fn more_parameters(
    alloc: Global,
    tokens: &mut Tokens,
    found: Items<Param>,
) -> Result<Items<Param>, SyntaxError>
    ensures { Steps (turns (sees k.Comma) (spec.after k.Comma spec.parameter) found) tokens.old result tokens.new }
{
    let mut found = found;
    'more: while tokens.sees(Kind::Comma) {
        found = parameter_after(alloc, tokens, found)?;
    }
    Ok(found)
}

#[tactic(auto, unfolding(crate::specs::Reading::some_parameters))]
fn some_parameters(alloc: Global, tokens: &mut Tokens) -> Result<Items<Param>, SyntaxError>
    ensures { Steps spec.some_parameters tokens.old result tokens.new }
{
    let mut found = Items::new(alloc);
    found.push(parameter(alloc, tokens)?)?;
    more_parameters(alloc, tokens, found)
}

/// Reads parameters in parentheses, at most 255 (JLS 8, 8.4.1).
#[tactic(auto, unfolding(crate::specs::Reading::parameters))]
pub(crate) fn read_parameters(
    alloc: Global,
    tokens: &mut Tokens,
) -> Result<Items<Param>, SyntaxError>
    ensures { Steps spec.parameters tokens.old result tokens.new }
{
    tokens.sign(Kind::LParen)?;
    let found = if tokens.sees(Kind::RParen) {
        Items::new(alloc)
    } else {
        some_parameters(alloc, tokens)?
    };
    tokens.sign(Kind::RParen)?;
    if found.len() > PARAMETER_LIMIT {
        return Err(SyntaxError::NotSpelled);
    }
    Ok(found)
}

#[tactic(auto, unfolding(crate::specs::Reading::after))]
fn thrown_after(
    alloc: Global,
    tokens: &mut Tokens,
    found: Items<Items<Lexeme>>,
) -> Result<Items<Items<Lexeme>>, SyntaxError>
    ensures { Steps (spec.after k.Comma spec.qualified found) tokens.old result tokens.new }
{
    let mut found = found;
    tokens.sign(Kind::Comma)?;
    found.push(read_qualified(alloc, tokens)?)?;
    Ok(found)
}

fn more_throws(
    alloc: Global,
    tokens: &mut Tokens,
    found: Items<Items<Lexeme>>,
) -> Result<Items<Items<Lexeme>>, SyntaxError>
    ensures { Steps (turns (sees k.Comma) (spec.after k.Comma spec.qualified) found) tokens.old result tokens.new }
{
    let mut found = found;
    'more: while tokens.sees(Kind::Comma) {
        found = thrown_after(alloc, tokens, found)?;
    }
    Ok(found)
}

#[tactic(auto, unfolding(crate::specs::Reading::some_throws))]
fn some_throws(alloc: Global, tokens: &mut Tokens) -> Result<Items<Items<Lexeme>>, SyntaxError>
    ensures { Steps spec.some_throws tokens.old result tokens.new }
{
    tokens.sign(Kind::Throws)?;
    let mut found = Items::new(alloc);
    found.push(read_qualified(alloc, tokens)?)?;
    more_throws(alloc, tokens, found)
}

/// Reads `throws` and what it names, if it stands next (JLS 8, 8.4.6).
#[tactic(auto, unfolding(crate::specs::Reading::throws))]
pub(crate) fn read_throws(
    alloc: Global,
    tokens: &mut Tokens,
) -> Result<Items<Items<Lexeme>>, SyntaxError>
    ensures { Steps spec.throws tokens.old result tokens.new }
{
    if tokens.sees(Kind::Throws) {
        some_throws(alloc, tokens)
    } else {
        Ok(Items::new(alloc))
    }
}

/// Reads the result of a method: a type, or `None` for `void` (JLS 8, 8.4.5).
#[tactic(auto, unfolding(crate::specs::Reading::result_type))]
pub(crate) fn read_result(alloc: Global, tokens: &mut Tokens) -> Result<Option<Ty>, SyntaxError>
    ensures { Steps spec.result_type tokens.old result tokens.new }
{
    if tokens.sees(Kind::Void) {
        tokens.sign(Kind::Void)?;
        return Ok(None);
    }
    Ok(Some(read_type(alloc, tokens)?))
}
