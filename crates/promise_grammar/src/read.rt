ghost use Rattle.std.specs.Prelude.{◌≡◌, ℕ, List, [], IfOk};
ghost use Rattle.promise_grammar.specs.declared.tree.PromiseTree.{PromiseTree};
ghost use Rattle.promise_grammar.specs.declared.kind.PromiseKind.{PromiseKind};
ghost use Rattle.promise_grammar.specs.Promise.{ReadsPromise, IsAnswer};
ghost use Rattle.promise_grammar.specs.Peeling as spec;
ghost use Rattle.promise_grammar.specs.Peeling.{Peels};

use crate::error::PromiseError;
use crate::kind::PromiseKind;
use crate::layer::{Layer, opened};
use crate::plain::plain_tree;
use crate::tree::PromiseTree;
use desk_base::{Boxed, Items, OutOfMemory};
use std::alloc::Global;

/// Whether a promise of the kind holds another one.
fn nests(kind: PromiseKind) -> bool
    ensures { result ≡ spec.nests kind }
{
    matches!(kind, PromiseKind::Promise | PromiseKind::Assume)
}

/// The tree with the layer round it.
fn around(alloc: Global, layer: Layer, inner: PromiseTree) -> Result<PromiseTree, OutOfMemory>
    ensures { IfOk result (λ t. t ≡ spec.around layer inner) }
{
    let inner = Boxed::new(alloc, inner)?;
    match layer {
        Layer::Promise(scope) => Ok(PromiseTree::Promise(inner, scope)),
        Layer::Assume(member) => Ok(PromiseTree::Assume(inner, member)),
    }
}

/// The tree with the layers round it, the outermost first.
fn wrapped(
    alloc: Global,
    mut layers: Items<Layer>,
    core: PromiseTree,
) -> Result<PromiseTree, OutOfMemory>
    ensures { IfOk result (λ t. t ≡ spec.wrapped layers core) }
{
    let mut tree = core;
    while let Some(layer) = layers.pop() {
        tree = around(alloc, layer, tree)?;
    }
    Ok(tree)
}

/// Takes the layers off a content, from the outside in: the kind that is left, and its content.
fn peeled<'a>(
    alloc: Global,
    kind: PromiseKind,
    content: &'a [u8],
    layers: &mut Items<Layer>,
) -> Result<(PromiseKind, &'a [u8]), PromiseError>
    requires { layers.old ≡ [] }
    ensures { Peels kind content.now result layers.new }
{
    let mut kind = kind;
    let mut content = content;
    'inwards: while nests(kind) {
        match opened(alloc, kind, content) {
            Ok((layer, inner, text)) => {
                layers.push(layer)?;
                kind = inner;
                content = text;
            }
            Err(error) => return Err(error),
        }
    }
    Ok((kind, content))
}

/// The tree that the content spells as a promise of that kind. `Grammar` comes exactly where it
/// spells none. Contents may nest as deep as they are long: it takes time in proportion to their
/// length, and no stack.
pub fn read_promise(
    alloc: Global,
    kind: PromiseKind,
    content: &[u8],
) -> Result<PromiseTree, PromiseError>
    ensures { IsAnswer kind content.now result }
{
    let mut layers = Items::new(alloc);
    let (kind, content) = peeled(alloc, kind, content, &mut layers)?;
    let core = plain_tree(alloc, kind, content)?;
    Ok(wrapped(alloc, layers, core)?)
}

/// A content spells at most one tree as a promise of a kind.
pub fn one_tree()
    ensures { (kind : PromiseKind) (content : List ℕ) (a b : PromiseTree) →
        ReadsPromise kind content a → ReadsPromise kind content b → a ≡ b }
{}
