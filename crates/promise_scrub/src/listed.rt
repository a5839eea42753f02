ghost use Rattle.std.specs.Prelude.{◌≡◌, IfOk};
ghost use Rattle.promise_grammar.specs.declared.tree.PromiseTree.{out-PromiseTree};
ghost use Rattle.promise_scrub.specs.Verdicts as spec;

use crate::surface::{Aside, Standing};
use desk_base::{OutOfMemory, PromiseKey, PromiseName, Text};
use itoa::Buffer;
use promise_grammar::{PromiseTree, Shared};
use result_records::FindingCode;
use scrub_rules::Offer;
use std::alloc::Global;

fn numbered(alloc: Global, number: usize) -> Result<Text, OutOfMemory>
    ensures { IfOk result (λ text. text ≡ spec.numbered number) }
{
    let mut text = Text::from_text(alloc, "#")?;
    let mut buffer = Buffer::new();
    text.append(buffer.format(number))?;
    Ok(text)
}

/// What a surface lists of an annotation that is set aside.
pub(crate) fn aside_of(
    alloc: Global,
    key: &Text,
    name: PromiseName,
    number: usize,
    code: FindingCode,
) -> Result<Aside, OutOfMemory>
    ensures { IfOk result (λ aside. aside ≡ spec.aside_of key.now name number code) }
{
    let detail = numbered(alloc, number)?;
    Ok(Aside {
        key: PromiseKey {
            target: key.clone()?,
            name,
            detail,
        },
        code,
    })
}

/// What a surface lists of a promise that stands.
pub(crate) fn standing_of(
    key: &Text,
    tree: &Shared<PromiseTree>,
    offer: &Offer,
) -> Result<Standing, OutOfMemory>
    ensures { IfOk result (λ promise. promise ≡ spec.standing_of key.now tree.now offer.now) }
{
    let tree = tree.clone()?;
    Ok(Standing {
        key: PromiseKey {
            target: key.clone()?,
            name: offer.name,
            detail: offer.detail.clone()?,
        },
        tree,
    })
}

/// Whether a content vouches for its unit.
pub(crate) fn is_vouch(tree: &PromiseTree) -> bool
    ensures { result ≡ spec.is_vouch (out-PromiseTree tree.now) }
{
    matches!(tree, PromiseTree::Vouch(_))
}
