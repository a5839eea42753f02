ghost use Rattle.std.specs.Prelude.{◌≡◌, ◌++◌, IfOk, OnOk};
ghost use Rattle.std.specs.Option.{option_map};
ghost use Rattle.promise_marks.specs.Given as spec;
ghost use Rattle.promise_marks.specs.Marks.{IsTree};

use desk_base::{Bytes, OutOfMemory};
use java_lexer::string_value;
use java_tree::{AnnotLayer, Elem, Elements, Lexeme};
use promise_grammar::{PromiseError, PromiseKind, PromiseTree, Shared, read_promise};
use std::alloc::Global;

fn last_name(words: &[Lexeme]) -> &[u8]
    ensures { result.now ≡ spec.last_name words.now }
{
    match words {
        [] => &[],
        [.., last] => last.text.as_slice(),
    }
}

/// The name that an annotation goes by: the last one of its qualified name.
pub(crate) fn name_of(layer: &AnnotLayer) -> &[u8]
    ensures { result.now ≡ spec.name_of layer.now }
{
    last_name(layer.name.as_slice())
}

/// What the containers hold.
pub(crate) fn held_by(name: &[u8]) -> Option<PromiseKind>
    ensures { result ≡ spec.held_by name.now }
{
    if name == b"Regions".as_slice() {
        Some(PromiseKind::Region)
    } else if name == b"RegionLocks".as_slice() {
        Some(PromiseKind::RegionLock)
    } else if name == b"Promises".as_slice() {
        Some(PromiseKind::Promise)
    } else if name == b"Assumes".as_slice() {
        Some(PromiseKind::Assume)
    } else {
        None
    }
}

fn string_in(alloc: Global, elem: &Elem) -> Result<Option<Bytes>, OutOfMemory>
    ensures { IfOk result (λ value. value ≡ spec.string_in elem.now) }
{
    match elem {
        Elem::Str(word) => Ok(Some(string_value(alloc, word.text.as_slice())?)),
        Elem::Annot => Ok(None),
    }
}

fn content_in(alloc: Global, elems: &[Elem]) -> Result<Option<Bytes>, OutOfMemory>
    ensures { IfOk result (λ content. content ≡ spec.content_of elems.now) }
{
    match elems {
        [] => Ok(Some(Bytes::new(alloc))),
        [elem] => string_in(alloc, elem),
        _ => Ok(None),
    }
}

/// The value of an annotation's one string, which is empty where it has no element.
pub(crate) fn content_of(alloc: Global, layer: &AnnotLayer) -> Result<Option<Bytes>, OutOfMemory>
    ensures { IfOk result (λ content. content ≡ spec.content_of (spec.elems_of layer.now)) }
{
    match &layer.elements {
        Elements::Bare => Ok(Some(Bytes::new(alloc))),
        Elements::Empty(_, _) => Ok(Some(Bytes::new(alloc))),
        Elements::One(_, _, elem, _) => string_in(alloc, elem),
        Elements::Many(_, _, elems, _) => content_in(alloc, elems.as_slice()),
    }
}

/// The tree of a content, or `None` where it spells none.
pub(crate) fn tree_of(
    alloc: Global,
    kind: PromiseKind,
    content: &Option<Bytes>,
) -> Result<Option<Shared<PromiseTree>>, OutOfMemory>
    ensures { IfOk result (λ tree. IsTree kind content.now tree) }
{
    let Some(content) = content else {
        return Ok(None);
    };
    match read_promise(alloc, kind, content.as_slice()) {
        Ok(tree) => Ok(Some(Shared::new(alloc, tree)?)),
        Err(PromiseError::Grammar) => Ok(None),
        Err(PromiseError::OutOfMemory) => Err(OutOfMemory),
    }
}
