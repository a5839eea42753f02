//! Annotations. They nest without a limit, so those that are open are kept in a list, and those that
//! have ended in another.

ghost use Rattle.std.specs.Prelude.{◌≡◌, [], ◌∷◌, ◌++◌, reverse, IfOk, IfErr};
ghost use Rattle.java_phrases.specs.Cursor.{Steps};
ghost use Rattle.java_heads.specs.Annotation.{inner_annot};
ghost use Rattle.java_heads.specs.Reading as spec;

use crate::names::read_qualified;
use crate::nest::{Frame, Nest, Opened};
use desk_base::{Items, Span};
use java_phrases::{SyntaxError, Tokens};
use java_tree::{Annot, AnnotLayer, Elem, Elements, InnerAnnot, Kind, Lexeme};
use std::alloc::Global;

/// The word `value` and its `=`, if a name stands next.
#[tactic(auto, unfolding(crate::specs::Reading::value_word))]
fn value_word(alloc: Global, tokens: &mut Tokens) -> Result<Option<Lexeme>, SyntaxError>
    ensures { Steps spec.value_word tokens.old result tokens.new }
{
    if !tokens.sees(Kind::Name) {
        return Ok(None);
    }
    let name = tokens.word(alloc, Kind::Name)?;
    if name.text.as_slice() != b"value".as_slice() {
        return Err(SyntaxError::NotSpelled);
    }
    tokens.sign(Kind::Assign)?;
    Ok(Some(name))
}

/// The end of elements in braces.
#[tactic(auto, unfolding(crate::specs::Reading::closed))]
fn closed(tokens: &mut Tokens, frame: Frame) -> Result<Opened, SyntaxError>
    ensures { Steps (spec.closed frame) tokens.old result tokens.new }
{
    tokens.sign(Kind::RBrace)?;
    let closing = tokens.sign(Kind::RParen)?;
    Ok(Opened::Whole(AnnotLayer {
        at: frame.at,
        name: frame.name,
        elements: Elements::Many(frame.opening, frame.value, frame.elems, closing),
    }))
}

/// What stands behind the parenthesis of an annotation with elements, up to its first element.
#[tactic(auto, unfolding(crate::specs::Reading::inside))]
fn inside(
    alloc: Global,
    tokens: &mut Tokens,
    at: Span,
    name: Items<Lexeme>,
    opening: Span,
) -> Result<Opened, SyntaxError>
    ensures { Steps (spec.inside at name opening) tokens.old result tokens.new }
{
    let value = value_word(alloc, tokens)?;
    let in_braces = tokens.sees(Kind::LBrace);
    let frame = Frame {
        at,
        name,
        opening,
        value,
        in_braces,
        elems: Items::new(alloc),
    };
    if !in_braces {
        return Ok(Opened::Open(frame));
    }
    tokens.sign(Kind::LBrace)?;
    if tokens.sees(Kind::RBrace) {
        closed(tokens, frame)
    } else {
        Ok(Opened::Open(frame))
    }
}

#[tactic(auto, unfolding(crate::specs::Reading::parenthesized))]
fn parenthesized(
    alloc: Global,
    tokens: &mut Tokens,
    at: Span,
    name: Items<Lexeme>,
) -> Result<Opened, SyntaxError>
    ensures { Steps (spec.parenthesized at name) tokens.old result tokens.new }
{
    let opening = tokens.sign(Kind::LParen)?;
    if tokens.sees(Kind::RParen) {
        let closing = tokens.sign(Kind::RParen)?;
        Ok(Opened::Whole(AnnotLayer {
            at,
            name,
            elements: Elements::Empty(opening, closing),
        }))
    } else {
        inside(alloc, tokens, at, name, opening)
    }
}

/// An annotation up to its first element.
#[tactic(auto, unfolding(crate::specs::Reading::head))]
fn head(alloc: Global, tokens: &mut Tokens) -> Result<Opened, SyntaxError>
    ensures { Steps spec.head tokens.old result tokens.new }
{
    let at = tokens.sign(Kind::At)?;
    let name = read_qualified(alloc, tokens)?;
    if tokens.sees(Kind::LParen) {
        parenthesized(alloc, tokens, at, name)
    } else {
        Ok(Opened::Whole(AnnotLayer {
            at,
            name,
            elements: Elements::Bare,
        }))
    }
}

fn with_elem(frame: Frame, elem: Elem) -> Result<Frame, SyntaxError>
    ensures made { IfOk result (λ made. made ≡ spec.with_elem frame elem) }
    ensures memory { IfErr result (λ e. e ≡ SyntaxError.OutOfMemory) }
{
    let mut frame = frame;
    frame.elems.push(elem)?;
    Ok(frame)
}

fn one_tree(frame: Frame, elem: Elem, closing: Span) -> AnnotLayer
    ensures { result ≡ spec.one_tree frame elem closing }
{
    AnnotLayer {
        at: frame.at,
        name: frame.name,
        elements: Elements::One(frame.opening, frame.value, elem, closing),
    }
}

/// What stands behind an element.
#[tactic(auto, unfolding(crate::specs::Reading::placed))]
fn placed(tokens: &mut Tokens, frame: Frame, elem: Elem) -> Result<Opened, SyntaxError>
    ensures { Steps (spec.placed frame elem) tokens.old result tokens.new }
{
    if !frame.in_braces {
        let closing = tokens.sign(Kind::RParen)?;
        return Ok(Opened::Whole(one_tree(frame, elem, closing)));
    }
    let frame = with_elem(frame, elem)?;
    if tokens.sees(Kind::Comma) {
        tokens.sign(Kind::Comma)?;
        Ok(Opened::Open(frame))
    } else {
        closed(tokens, frame)
    }
}

/// One more annotation that has ended, which stands in so many others.
fn with_inner(
    ended: Items<InnerAnnot>,
    depth: usize,
    layer: AnnotLayer,
) -> Result<Items<InnerAnnot>, SyntaxError>
    ensures made { IfOk result (λ made. made ≡ ended ++ inner_annot depth layer ∷ []) }
    ensures memory { IfErr result (λ e. e ≡ SyntaxError.OutOfMemory) }
{
    let mut ended = ended;
    ended.push(InnerAnnot { depth, layer })?;
    Ok(ended)
}

/// A whole annotation is an element of the one round it.
#[tactic(auto, unfolding(crate::specs::Reading::surrounded))]
fn surrounded(
    tokens: &mut Tokens,
    outer: Items<Frame>,
    ended: Items<InnerAnnot>,
    layer: AnnotLayer,
) -> Result<Nest, SyntaxError>
    ensures { Steps (spec.surrounded outer ended layer) tokens.old result tokens.new }
{
    let mut outer = outer;
    let depth = outer.len();
    match outer.pop() {
        None => Err(SyntaxError::NotSpelled),
        Some(frame) => {
            let ended = with_inner(ended, depth, layer)?;
            let last = placed(tokens, frame, Elem::Annot)?;
            Ok(Nest { outer, ended, last })
        }
    }
}

/// The string that is the next element of an open annotation.
#[tactic(auto, unfolding(crate::specs::Reading::text_placed))]
fn text_placed(alloc: Global, tokens: &mut Tokens, frame: Frame) -> Result<Opened, SyntaxError>
    ensures { Steps (spec.text_placed frame) tokens.old result tokens.new }
{
    let text = tokens.word(alloc, Kind::StrLiteral)?;
    placed(tokens, frame, Elem::Str(text))
}

/// The next element of an open annotation.
#[tactic(auto, unfolding(crate::specs::Reading::entered))]
fn entered(
    alloc: Global,
    tokens: &mut Tokens,
    outer: Items<Frame>,
    ended: Items<InnerAnnot>,
    frame: Frame,
) -> Result<Nest, SyntaxError>
    ensures { Steps (spec.entered outer ended frame) tokens.old result tokens.new }
{
    let mut outer = outer;
    let last = if tokens.sees(Kind::StrLiteral) {
        text_placed(alloc, tokens, frame)?
    } else {
        outer.push(frame)?;
        head(alloc, tokens)?
    };
    Ok(Nest { outer, ended, last })
}

#[tactic(auto, unfolding(crate::specs::Reading::turn))]
fn turn(alloc: Global, tokens: &mut Tokens, nest: Nest) -> Result<Nest, SyntaxError>
    ensures { Steps (spec.turn nest) tokens.old result tokens.new }
{
    let Nest { outer, ended, last } = nest;
    match last {
        Opened::Whole(layer) => surrounded(tokens, outer, ended, layer),
        Opened::Open(frame) => entered(alloc, tokens, outer, ended, frame),
    }
}

#[tactic(auto, unfolding(crate::specs::Reading::is_whole))]
fn is_whole(nest: &Nest) -> bool
    ensures { result ≡ spec.is_whole nest.now }
{
    match &nest.last {
        Opened::Whole(_) => nest.outer.is_empty(),
        Opened::Open(_) => false,
    }
}

fn nested(alloc: Global, tokens: &mut Tokens, nest: Nest) -> Result<Nest, SyntaxError>
    ensures { Steps (spec.nested nest) tokens.old result tokens.new }
{
    let mut nest = nest;
    'nest: while !is_whole(&nest) {
        nest = turn(alloc, tokens, nest)?;
    }
    Ok(nest)
}

/// Reads an annotation (JLS 8, 9.7, as far as the subset goes).
#[tactic(auto, unfolding(crate::specs::Reading::annotation))]
pub(crate) fn annotation(alloc: Global, tokens: &mut Tokens) -> Result<Annot, SyntaxError>
    ensures { Steps spec.annotation tokens.old result tokens.new }
{
    let last = head(alloc, tokens)?;
    let outer = Items::new(alloc);
    let ended = Items::new(alloc);
    let nest = nested(alloc, tokens, Nest { outer, ended, last })?;
    let Nest {
        outer: _,
        ended,
        last,
    } = nest;
    match last {
        Opened::Whole(layer) => Ok(Annot {
            layer,
            inner: ended,
        }),
        Opened::Open(_) => Err(SyntaxError::NotSpelled),
    }
}
