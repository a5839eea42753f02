//! Members up to their bodies. Which production a member is of is told by the tokens behind its
//! modifiers.

ghost use Rattle.std.specs.Prelude.{◌≡◌, List, IfOk, OnOk};
ghost use Rattle.java_tree.specs.declared.token.Token.{Token};
ghost use Rattle.java_phrases.specs.Cursor.{ahead, from_start, Steps};
ghost use Rattle.java_phrases.specs.Answers.{Gives};
ghost use Rattle.java_heads.specs.Headings.{HeadingSpells, BodyFollows};
ghost use Rattle.java_heads.specs.HeadingReading as spec;

use crate::declaration::Declaration;
use crate::lines::read_perhaps;
use crate::member::{read_field_end, read_named};
use crate::modifiers::{modifiers_fit, read_all_modifiers};
use crate::parameters::{read_parameters, read_throws};
use desk_base::{Items, Name, Span};
use java_phrases::{SyntaxError, Tokens, read_type};
use java_tree::{Field, Kind, Lexeme, Mod, Param, Ty};
use std::alloc::Global;

/// A method up to its body. Its result is `None` for `void`.
#[derive(Drop)]
pub struct MethodHeading {
    pub mods: Items<Mod>,
    pub result: Option<Ty>,
    pub name: Lexeme,
    pub params: Items<Param>,
    pub throws: Items<Items<Lexeme>>,
}

/// A constructor up to its body.
#[derive(Drop)]
pub struct CtorHeading {
    pub mods: Items<Mod>,
    pub name: Lexeme,
    pub params: Items<Param>,
    pub throws: Items<Items<Lexeme>>,
}

/// `public static void main(String[] ..)` up to its body.
#[derive(Drop)]
pub struct MainHeading {
    pub mods: Items<Mod>,
    pub name: Lexeme,
    pub final_word: Option<Span>,
    pub param: Lexeme,
    pub throws: Items<Items<Lexeme>>,
}

/// A member up to its body. A field has none, and is whole but for its tokens.
#[derive(Drop)]
pub enum Heading {
    Field(Field),
    Method(MethodHeading),
    Ctor(CtorHeading),
    Main(MainHeading),
}

/// Whether the token behind so many others is of this kind.
#[tactic(auto, unfolding(crate::specs::HeadingReading::stands))]
fn stands(tokens: &Tokens, others: usize, kind: Kind) -> bool
    ensures { result ≡ spec.stands kind others (ahead tokens.now) }
{
    match tokens.kind_at(others) {
        Some(found) => found == kind,
        None => false,
    }
}

/// Whether a parenthesis and an array of a named type stand next.
#[tactic(auto, unfolding(crate::specs::HeadingReading::takes_array))]
fn takes_array(tokens: &Tokens) -> bool
    ensures { result ≡ spec.takes_array (ahead tokens.now) }
{
    if stands(tokens, 1, Kind::Final) {
        stands(tokens, 2, Kind::Name) && stands(tokens, 3, Kind::LBracket)
    } else {
        stands(tokens, 1, Kind::Name) && stands(tokens, 2, Kind::LBracket)
    }
}

/// Whether a name and a parenthesis stand next.
#[tactic(auto, unfolding(crate::specs::HeadingReading::calls_name))]
fn calls_name(tokens: &Tokens) -> bool
    ensures { result ≡ spec.calls_name (ahead tokens.now) }
{
    stands(tokens, 0, Kind::Name) && stands(tokens, 1, Kind::LParen)
}

#[tactic(auto, unfolding(crate::specs::HeadingReading::method_end))]
fn method_end(
    alloc: Global,
    tokens: &mut Tokens,
    mods: Items<Mod>,
    result_type: Option<Ty>,
    name: Lexeme,
) -> Result<Heading, SyntaxError>
    ensures { Steps (spec.method_end mods result_type name) tokens.old result tokens.new }
{
    if !modifiers_fit(Declaration::Method, mods.as_slice()) {
        return Err(SyntaxError::NotSpelled);
    }
    let params = read_parameters(alloc, tokens)?;
    let throws = read_throws(alloc, tokens)?;
    Ok(Heading::Method(MethodHeading {
        mods,
        result: result_type,
        name,
        params,
        throws,
    }))
}

#[tactic(auto, unfolding(crate::specs::HeadingReading::main_end))]
fn main_end(
    alloc: Global,
    tokens: &mut Tokens,
    mods: Items<Mod>,
    name: Lexeme,
) -> Result<Heading, SyntaxError>
    ensures { Steps (spec.main_end mods name) tokens.old result tokens.new }
{
    if !modifiers_fit(Declaration::Main, mods.as_slice()) {
        return Err(SyntaxError::NotSpelled);
    }
    if name.text.as_slice() != b"main".as_slice() {
        return Err(SyntaxError::NotSpelled);
    }
    tokens.sign(Kind::LParen)?;
    let final_word = read_perhaps(tokens, Kind::Final)?;
    let _string = read_named(alloc, tokens, b"String")?;
    tokens.sign(Kind::LBracket)?;
    tokens.sign(Kind::RBracket)?;
    let param = tokens.word(alloc, Kind::Name)?;
    tokens.sign(Kind::RParen)?;
    let throws = read_throws(alloc, tokens)?;
    Ok(Heading::Main(MainHeading {
        mods,
        name,
        final_word,
        param,
        throws,
    }))
}

#[tactic(auto, unfolding(crate::specs::HeadingReading::void_member))]
fn void_member(alloc: Global, tokens: &mut Tokens, mods: Items<Mod>) -> Result<Heading, SyntaxError>
    ensures { Steps (spec.void_member mods) tokens.old result tokens.new }
{
    tokens.sign(Kind::Void)?;
    let name = tokens.word(alloc, Kind::Name)?;
    if takes_array(tokens) {
        main_end(alloc, tokens, mods, name)
    } else {
        method_end(alloc, tokens, mods, None, name)
    }
}

#[tactic(auto, unfolding(crate::specs::HeadingReading::constructor))]
fn constructor(
    alloc: Global,
    tokens: &mut Tokens,
    class_name: &Name,
    mods: Items<Mod>,
) -> Result<Heading, SyntaxError>
    ensures { Steps (spec.constructor class_name.now mods) tokens.old result tokens.new }
{
    if !modifiers_fit(Declaration::Ctor, mods.as_slice()) {
        return Err(SyntaxError::NotSpelled);
    }
    let name = read_named(alloc, tokens, class_name.as_slice())?;
    let params = read_parameters(alloc, tokens)?;
    let throws = read_throws(alloc, tokens)?;
    Ok(Heading::Ctor(CtorHeading {
        mods,
        name,
        params,
        throws,
    }))
}

#[tactic(auto, unfolding(crate::specs::HeadingReading::field_member))]
fn field_member(
    alloc: Global,
    tokens: &mut Tokens,
    mods: Items<Mod>,
    ty: Ty,
    name: Lexeme,
) -> Result<Heading, SyntaxError>
    ensures { Steps (spec.field_member mods ty name) tokens.old result tokens.new }
{
    if !modifiers_fit(Declaration::Field, mods.as_slice()) {
        return Err(SyntaxError::NotSpelled);
    }
    Ok(Heading::Field(read_field_end(alloc, tokens, mods, ty, name)?))
}

#[tactic(auto, unfolding(crate::specs::HeadingReading::typed_member))]
fn typed_member(
    alloc: Global,
    tokens: &mut Tokens,
    mods: Items<Mod>,
) -> Result<Heading, SyntaxError>
    ensures { Steps (spec.typed_member mods) tokens.old result tokens.new }
{
    let ty = read_type(alloc, tokens)?;
    let name = tokens.word(alloc, Kind::Name)?;
    if tokens.sees(Kind::LParen) {
        method_end(alloc, tokens, mods, Some(ty), name)
    } else {
        field_member(alloc, tokens, mods, ty, name)
    }
}

#[tactic(auto, unfolding(crate::specs::HeadingReading::member_heading))]
fn member_heading(
    alloc: Global,
    tokens: &mut Tokens,
    class_name: &Name,
) -> Result<Heading, SyntaxError>
    ensures { Steps (spec.member_heading class_name.now) tokens.old result tokens.new }
{
    let mods = read_all_modifiers(alloc, tokens)?;
    if tokens.sees(Kind::Void) {
        void_member(alloc, tokens, mods)
    } else if calls_name(tokens) {
        constructor(alloc, tokens, class_name, mods)
    } else {
        typed_member(alloc, tokens, mods)
    }
}

/// Reads a member of the class of this name up to its body: a field, which has none, or the heading of
/// a method, a constructor or `main` (JLS 8, 8.3, 8.4, 8.8, 12.1.4, as far as the subset goes). Where
/// a heading is spelled that a body follows, or a field, it is found.
pub fn read_heading(
    alloc: Global,
    tokens: &mut Tokens,
    class_name: &Name,
) -> Result<Heading, SyntaxError>
    ensures found { IfOk result (λ h. HeadingSpells class_name.now h (ahead tokens.old) (ahead tokens.new)) }
    ensures only { (h : Heading) (rest : List Token) → HeadingSpells class_name.now h (ahead tokens.old) rest → BodyFollows h rest → Gives result (ahead tokens.new) h rest }
    ensures kept { OnOk result (from_start tokens.new ≡ from_start tokens.old) }
{
    member_heading(alloc, tokens, class_name)
}
