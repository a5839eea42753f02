ghost use Rattle.std.specs.Prelude.{◌≡◌};
ghost use Rattle.promise_grammar.specs.Outcome.{Reads, Answers};
ghost use Rattle.promise_grammar.specs.Peeling.{PlainAnswer, VouchAnswer};
ghost use Rattle.promise_grammar.specs.Reading as read;

use crate::effects::effects;
use crate::error::PromiseError;
use crate::kind::PromiseKind;
use crate::lock::{lock_items, region_lock};
use crate::mark::{borrowed, unique};
use crate::names::name;
use crate::pieces::Pieces;
use crate::region::region;
use crate::tree::PromiseTree;
use desk_base::Text;
use std::alloc::Global;
use std::str::from_utf8;

/// The greatest length of a Vouch.
const VOUCH_BYTES: usize = 1024;

/// Reads the tree of a kind whose content is made of words.
#[tactic(auto, unfolding(crate::specs::Reading::tree_of))]
fn tree_of(
    alloc: Global,
    kind: PromiseKind,
    pieces: &mut Pieces<'_>,
) -> Result<PromiseTree, PromiseError>
    ensures { Reads (read.tree_of kind pieces.old) result pieces.new }
{
    match kind {
        PromiseKind::Region => Ok(PromiseTree::Region(region(alloc, pieces)?)),
        PromiseKind::InRegion => Ok(PromiseTree::InRegion(name(alloc, pieces)?)),
        PromiseKind::RegionLock => Ok(PromiseTree::RegionLock(region_lock(alloc, pieces)?)),
        PromiseKind::RequiresLock => Ok(PromiseTree::RequiresLock(lock_items(alloc, pieces)?)),
        PromiseKind::Unique => Ok(PromiseTree::Unique(unique(pieces))),
        PromiseKind::Borrowed => Ok(PromiseTree::Borrowed(borrowed(pieces))),
        PromiseKind::RegionEffects => Ok(PromiseTree::RegionEffects(effects(alloc, pieces)?)),
        PromiseKind::Starts => {
            pieces.expect_word(b"nothing")?;
            Ok(PromiseTree::Starts)
        }
        PromiseKind::Promise | PromiseKind::Assume | PromiseKind::Vouch => {
            Err(PromiseError::Grammar)
        }
    }
}

/// The tree that the whole content spells in words.
#[tactic(auto, unfolding(crate::specs::Reading::words_tree))]
fn words_tree(alloc: Global, kind: PromiseKind, content: &[u8]) -> Result<PromiseTree, PromiseError>
    ensures { Answers (read.words_tree kind content.now) result }
{
    let mut pieces = Pieces::new(content);
    let tree = tree_of(alloc, kind, &mut pieces)?;
    pieces.expect_end()?;
    Ok(tree)
}

/// The text of a Vouch: any text of 1 to 1024 bytes.
fn vouch(alloc: Global, content: &[u8]) -> Result<Text, PromiseError>
    ensures { VouchAnswer content.now result }
{
    if content.is_empty() || content.len() > VOUCH_BYTES {
        return Err(PromiseError::Grammar);
    }
    match from_utf8(content) {
        Ok(text) => Ok(Text::from_text(alloc, text)?),
        Err(_) => Err(PromiseError::Grammar),
    }
}

/// The tree of a content that holds no other promise.
pub fn plain_tree(
    alloc: Global,
    kind: PromiseKind,
    content: &[u8],
) -> Result<PromiseTree, PromiseError>
    ensures { PlainAnswer kind content.now result }
{
    match kind {
        PromiseKind::Vouch => Ok(PromiseTree::Vouch(vouch(alloc, content)?)),
        _ => words_tree(alloc, kind, content),
    }
}
