ghost use Rattle.std.specs.Prelude.{◌≡◌, ◌↔◌, IsTrue};
ghost use Rattle.std.specs.Cmp.{decided, partial_equiv_from_equiv};
ghost use Rattle.std.specs.Option.{option_copied};
ghost use Rattle.promise_grammar.specs.declared.tree.PromiseTree.{out-PromiseTree};
ghost use Rattle.promise_grammar.specs.SameTree as spec;
ghost use Rattle.promise_grammar.specs.SameTree.{same_tree, tree_decides};

use crate::effects::EffectsContent;
use crate::lock::{LockItem, RegionLockContent};
use crate::mark::{BorrowedContent, UniqueContent};
use crate::member::MemberContent;
use crate::region::RegionContent;
use crate::scope::ScopeContent;
use crate::tree::PromiseTree;
use desk_base::{Name, Text};

fn is_region(content: &RegionContent, tree: &PromiseTree) -> bool
    ensures { result ≡ spec.is_region content.now (out-PromiseTree tree.now) }
{
    match tree {
        PromiseTree::Region(other) => content == other,
        _ => false,
    }
}

fn is_in_region(name: &Name, tree: &PromiseTree) -> bool
    ensures { result ≡ spec.is_in_region name.now (out-PromiseTree tree.now) }
{
    match tree {
        PromiseTree::InRegion(other) => name == other,
        _ => false,
    }
}

fn is_lock(content: &RegionLockContent, tree: &PromiseTree) -> bool
    ensures { result ≡ spec.is_lock content.now (out-PromiseTree tree.now) }
{
    match tree {
        PromiseTree::RegionLock(other) => content == other,
        _ => false,
    }
}

fn is_required(items: &[LockItem], tree: &PromiseTree) -> bool
    ensures { result ≡ spec.is_required items.now (out-PromiseTree tree.now) }
{
    match tree {
        PromiseTree::RequiresLock(other) => items == other.as_slice(),
        _ => false,
    }
}

fn is_unique(content: UniqueContent, tree: &PromiseTree) -> bool
    ensures { result ≡ spec.is_unique content (out-PromiseTree tree.now) }
{
    match tree {
        PromiseTree::Unique(other) => content == *other,
        _ => false,
    }
}

fn is_borrowed(content: BorrowedContent, tree: &PromiseTree) -> bool
    ensures { result ≡ spec.is_borrowed content (out-PromiseTree tree.now) }
{
    match tree {
        PromiseTree::Borrowed(other) => content == *other,
        _ => false,
    }
}

fn is_effects(content: &EffectsContent, tree: &PromiseTree) -> bool
    ensures { result ≡ spec.is_effects content.now (out-PromiseTree tree.now) }
{
    match tree {
        PromiseTree::RegionEffects(other) => content == other,
        _ => false,
    }
}

fn is_starts(tree: &PromiseTree) -> bool
    ensures { result ≡ spec.is_starts (out-PromiseTree tree.now) }
{
    matches!(tree, PromiseTree::Starts)
}

fn is_vouch(text: &Text, tree: &PromiseTree) -> bool
    ensures { result ≡ spec.is_vouch text.now (out-PromiseTree tree.now) }
{
    match tree {
        PromiseTree::Vouch(other) => text == other,
        _ => false,
    }
}

// The content in a promise that is for the same.
fn scoped<'a>(scope: &ScopeContent, tree: &'a PromiseTree) -> Option<&'a PromiseTree>
    ensures { option_copied result ≡ spec.scoped scope.now (out-PromiseTree tree.now) }
{
    match tree {
        PromiseTree::Promise(inner, other) => {
            if scope == other {
                Some(inner.get())
            } else {
                None
            }
        }
        _ => None,
    }
}

// The content in an assumption about the same member.
fn assumed<'a>(member: &MemberContent, tree: &'a PromiseTree) -> Option<&'a PromiseTree>
    ensures { option_copied result ≡ spec.assumed member.now (out-PromiseTree tree.now) }
{
    match tree {
        PromiseTree::Assume(inner, other) => {
            if member == other {
                Some(inner.get())
            } else {
                None
            }
        }
        _ => None,
    }
}

// A loop, since contents may nest tens of thousands deep.
fn is_same(tree: &PromiseTree, like: &PromiseTree) -> bool
    ensures { result ≡ same_tree tree.now like.now }
{
    let mut one = tree;
    let mut other = like;
    loop {
        match one {
            PromiseTree::Region(content) => return is_region(content, other),
            PromiseTree::InRegion(name) => return is_in_region(name, other),
            PromiseTree::RegionLock(content) => return is_lock(content, other),
            PromiseTree::RequiresLock(items) => return is_required(items.as_slice(), other),
            PromiseTree::Unique(content) => return is_unique(*content, other),
            PromiseTree::Borrowed(content) => return is_borrowed(*content, other),
            PromiseTree::RegionEffects(content) => return is_effects(content, other),
            PromiseTree::Starts => return is_starts(other),
            PromiseTree::Vouch(text) => return is_vouch(text, other),
            PromiseTree::Promise(inner, scope) => {
                let Some(next) = scoped(scope, other) else {
                    return false;
                };
                one = inner.get();
                other = next;
            }
            PromiseTree::Assume(inner, member) => {
                let Some(next) = assumed(member, other) else {
                    return false;
                };
                one = inner.get();
                other = next;
            }
        }
    }
}

impl PartialEq for PromiseTree {
    ghost eq = { same_tree };

    ghost laws = { partial_equiv_from_equiv (decided same_tree tree_decides) };

    /// True exactly where the two are equal, whatever they hold.
    fn eq(&self, other: &PromiseTree) -> bool
        ensures value { result ≡ same_tree self.now other.now }
        ensures exact { IsTrue result ↔ (self.now ≡ other.now) }
    {
        is_same(self, other)
    }
}

impl Eq for PromiseTree {
    ghost laws = { decided same_tree tree_decides };
}
