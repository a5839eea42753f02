//! The headers of types.

ghost use Rattle.std.specs.Prelude.{◌≡◌};
ghost use Rattle.java_tree.specs.declared.kind.Kind.TheVariants as k;
ghost use Rattle.java_phrases.specs.Parser.{word, sees, turns};
ghost use Rattle.java_phrases.specs.Cursor.{Steps};
ghost use Rattle.java_heads.specs.Spelling as spelling;
ghost use Rattle.java_heads.specs.Reading as spec;

use crate::declaration::Declaration;
use crate::modifiers::{modifiers_fit, read_all_modifiers};
use crate::names::name_after;
use desk_base::Items;
use java_phrases::{SyntaxError, Tokens};
use java_tree::{Kind, Lexeme, Mod, Token, TypeKind};
use std::alloc::Global;

/// What stands before the members of a class or an interface. Its tokens are those before the `{`.
#[derive(Drop)]
pub struct Header {
    pub mods: Items<Mod>,
    pub kind: TypeKind,
    pub name: Lexeme,
    pub implements: Items<Lexeme>,
    pub tokens: Items<Token>,
}

#[tactic(auto, unfolding(crate::specs::Reading::type_kind))]
fn type_kind(tokens: &mut Tokens) -> Result<TypeKind, SyntaxError>
    ensures { Steps spec.type_kind tokens.old result tokens.new }
{
    match tokens.peek() {
        Some(Kind::Class) => {
            tokens.sign(Kind::Class)?;
            Ok(TypeKind::Class)
        }
        Some(Kind::Interface) => {
            tokens.sign(Kind::Interface)?;
            Ok(TypeKind::Interface)
        }
        _ => Err(SyntaxError::NotSpelled),
    }
}

fn declared_as(kind: TypeKind) -> Declaration
    ensures { result ≡ spelling.declared_as kind }
{
    match kind {
        TypeKind::Class => Declaration::Class,
        TypeKind::Interface => Declaration::Interface,
    }
}

#[tactic(auto, unfolding(crate::specs::Reading::is_free))]
fn is_free(name: &[u8]) -> bool
    ensures { result ≡ spec.is_free name.now }
{
    name != b"Object".as_slice()
        && name != b"String".as_slice()
        && name != b"Runnable".as_slice()
        && name != b"Thread".as_slice()
}

#[tactic(auto, unfolding(crate::specs::Reading::type_name))]
fn type_name(alloc: Global, tokens: &mut Tokens) -> Result<Lexeme, SyntaxError>
    ensures { Steps spec.type_name tokens.old result tokens.new }
{
    let name = tokens.word(alloc, Kind::Name)?;
    if !is_free(name.text.as_slice()) {
        return Err(SyntaxError::NotSpelled);
    }
    Ok(name)
}

fn more_interfaces(
    alloc: Global,
    tokens: &mut Tokens,
    found: Items<Lexeme>,
) -> Result<Items<Lexeme>, SyntaxError>
    ensures { Steps (turns (sees k.Comma) (spec.after k.Comma (word k.Name)) found) tokens.old result tokens.new }
{
    let mut found = found;
    'more: while tokens.sees(Kind::Comma) {
        found = name_after(alloc, tokens, Kind::Comma, found)?;
    }
    Ok(found)
}

#[tactic(auto, unfolding(crate::specs::Reading::some_interfaces))]
fn some_interfaces(alloc: Global, tokens: &mut Tokens) -> Result<Items<Lexeme>, SyntaxError>
    ensures { Steps spec.some_interfaces tokens.old result tokens.new }
{
    tokens.sign(Kind::Implements)?;
    let mut found = Items::new(alloc);
    found.push(tokens.word(alloc, Kind::Name)?)?;
    more_interfaces(alloc, tokens, found)
}

#[tactic(auto, unfolding(crate::specs::Reading::class_interfaces))]
fn class_interfaces(alloc: Global, tokens: &mut Tokens) -> Result<Items<Lexeme>, SyntaxError>
    ensures { Steps spec.class_interfaces tokens.old result tokens.new }
{
    if tokens.sees(Kind::Implements) {
        some_interfaces(alloc, tokens)
    } else {
        Ok(Items::new(alloc))
    }
}

fn interfaces(
    alloc: Global,
    tokens: &mut Tokens,
    kind: TypeKind,
) -> Result<Items<Lexeme>, SyntaxError>
    ensures { Steps (spec.interfaces kind) tokens.old result tokens.new }
{
    match kind {
        TypeKind::Class => class_interfaces(alloc, tokens),
        TypeKind::Interface => Ok(Items::new(alloc)),
    }
}

/// A header without its brace.
#[tactic(auto, unfolding(crate::specs::Reading::type_header))]
pub(crate) fn type_header(alloc: Global, tokens: &mut Tokens) -> Result<Header, SyntaxError>
    ensures { Steps spec.type_header tokens.old result tokens.new }
{
    let mods = read_all_modifiers(alloc, tokens)?;
    let kind = type_kind(tokens)?;
    if !modifiers_fit(declared_as(kind), mods.as_slice()) {
        return Err(SyntaxError::NotSpelled);
    }
    let name = type_name(alloc, tokens)?;
    let implements = interfaces(alloc, tokens, kind)?;
    Ok(Header {
        mods,
        kind,
        name,
        implements,
        tokens: Items::new(alloc),
    })
}
