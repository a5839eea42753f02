//! Members without a body: fields, and the methods of interfaces.

ghost use Rattle.std.specs.Prelude.{◌≡◌};
ghost use Rattle.java_phrases.specs.Cursor.{Steps};
ghost use Rattle.java_heads.specs.Reading as spec;

use crate::declaration::Declaration;
use crate::modifiers::read_modifiers;
use crate::parameters::{read_parameters, read_result, read_throws};
use desk_base::Items;
use java_phrases::{SyntaxError, Tokens, read_type};
use java_tree::{Field, Init, Kind, Lexeme, Mod, Sig, Ty};
use std::alloc::Global;

#[tactic(auto, unfolding(crate::specs::Reading::small))]
fn small(alloc: Global, tokens: &mut Tokens) -> Result<Init, SyntaxError>
    ensures { Steps spec.small tokens.old result tokens.new }
{
    let number = tokens.word(alloc, Kind::IntLiteral)?;
    if number.text.as_slice() == b"2147483648".as_slice() {
        return Err(SyntaxError::NotSpelled);
    }
    Ok(Init::Int(number))
}

#[tactic(auto, unfolding(crate::specs::Reading::negative))]
fn negative(alloc: Global, tokens: &mut Tokens) -> Result<Init, SyntaxError>
    ensures { Steps spec.negative tokens.old result tokens.new }
{
    let at = tokens.sign(Kind::Minus)?;
    let number = tokens.word(alloc, Kind::IntLiteral)?;
    Ok(Init::MinusInt(at, number))
}

/// Reads a name that is written so.
#[tactic(auto, unfolding(crate::specs::Reading::named))]
pub(crate) fn read_named(
    alloc: Global,
    tokens: &mut Tokens,
    text: &[u8],
) -> Result<Lexeme, SyntaxError>
    ensures { Steps (spec.named text.now) tokens.old result tokens.new }
{
    let name = tokens.word(alloc, Kind::Name)?;
    if name.text.as_slice() != text {
        return Err(SyntaxError::NotSpelled);
    }
    Ok(name)
}

#[tactic(auto, unfolding(crate::specs::Reading::new_object))]
fn new_object(alloc: Global, tokens: &mut Tokens) -> Result<Init, SyntaxError>
    ensures { Steps spec.new_object tokens.old result tokens.new }
{
    let at = tokens.sign(Kind::New)?;
    let _object = read_named(alloc, tokens, b"Object")?;
    tokens.sign(Kind::LParen)?;
    tokens.sign(Kind::RParen)?;
    Ok(Init::NewObject(at))
}

#[tactic(auto, unfolding(crate::specs::Reading::initializer))]
fn initializer(alloc: Global, tokens: &mut Tokens) -> Result<Init, SyntaxError>
    ensures { Steps spec.initializer tokens.old result tokens.new }
{
    match tokens.peek() {
        Some(Kind::IntLiteral) => small(alloc, tokens),
        Some(Kind::Minus) => negative(alloc, tokens),
        Some(Kind::New) => new_object(alloc, tokens),
        Some(Kind::True) => Ok(Init::True(tokens.sign(Kind::True)?)),
        Some(Kind::False) => Ok(Init::False(tokens.sign(Kind::False)?)),
        Some(Kind::Null) => Ok(Init::Null(tokens.sign(Kind::Null)?)),
        Some(Kind::StrLiteral) => Ok(Init::Str(tokens.word(alloc, Kind::StrLiteral)?)),
        _ => Err(SyntaxError::NotSpelled),
    }
}

#[tactic(auto, unfolding(crate::specs::Reading::init_part))]
fn init_part(alloc: Global, tokens: &mut Tokens) -> Result<Option<Init>, SyntaxError>
    ensures { Steps spec.init_part tokens.old result tokens.new }
{
    if !tokens.sees(Kind::Assign) {
        return Ok(None);
    }
    tokens.sign(Kind::Assign)?;
    Ok(Some(initializer(alloc, tokens)?))
}

/// Reads what stands behind a field's name. The tokens of the field are still to be kept.
#[tactic(auto, unfolding(crate::specs::Reading::field_end))]
pub(crate) fn read_field_end(
    alloc: Global,
    tokens: &mut Tokens,
    mods: Items<Mod>,
    ty: Ty,
    name: Lexeme,
) -> Result<Field, SyntaxError>
    ensures { Steps (spec.field_end mods ty name) tokens.old result tokens.new }
{
    let init = init_part(alloc, tokens)?;
    tokens.sign(Kind::Semicolon)?;
    Ok(Field {
        mods,
        ty,
        name,
        init,
        tokens: Items::new(alloc),
    })
}

#[tactic(auto, unfolding(crate::specs::Reading::field))]
pub(crate) fn field(alloc: Global, tokens: &mut Tokens) -> Result<Field, SyntaxError>
    ensures { Steps spec.field tokens.old result tokens.new }
{
    let mods = read_modifiers(alloc, tokens, Declaration::Field)?;
    let ty = read_type(alloc, tokens)?;
    let name = tokens.word(alloc, Kind::Name)?;
    read_field_end(alloc, tokens, mods, ty, name)
}

#[tactic(auto, unfolding(crate::specs::Reading::signature))]
pub(crate) fn signature(alloc: Global, tokens: &mut Tokens) -> Result<Sig, SyntaxError>
    ensures { Steps spec.signature tokens.old result tokens.new }
{
    let mods = read_modifiers(alloc, tokens, Declaration::Sig)?;
    let result = read_result(alloc, tokens)?;
    let name = tokens.word(alloc, Kind::Name)?;
    let params = read_parameters(alloc, tokens)?;
    let throws = read_throws(alloc, tokens)?;
    tokens.sign(Kind::Semicolon)?;
    Ok(Sig {
        mods,
        result,
        name,
        params,
        throws,
        tokens: Items::new(alloc),
    })
}
