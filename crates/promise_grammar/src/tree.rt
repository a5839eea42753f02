use crate::effects::EffectsContent;
use crate::lock::{LockItem, RegionLockContent};
use crate::mark::{BorrowedContent, UniqueContent};
use crate::member::MemberContent;
use crate::region::RegionContent;
use crate::scope::ScopeContent;
use desk_base::{Boxed, Items, Name, Text};

/// A content, by the kind of its promise. A scoped promise and an assumption hold the content of
/// the promise that they give.
#[derive(Debug)]
pub enum PromiseTree {
    Region(RegionContent),
    InRegion(Name),
    RegionLock(RegionLockContent),
    RequiresLock(Items<LockItem>),
    Unique(UniqueContent),
    Borrowed(BorrowedContent),
    RegionEffects(EffectsContent),
    Starts,
    Promise(Boxed<PromiseTree>, ScopeContent),
    Assume(Boxed<PromiseTree>, MemberContent),
    Vouch(Text),
}

impl Drop for PromiseTree {
    /// A loop, since contents may nest tens of thousands deep.
    fn drop(mut self) {
        loop {
            match self {
                PromiseTree::Promise(inner, _) => self = inner.into_inner(),
                PromiseTree::Assume(inner, _) => self = inner.into_inner(),
                PromiseTree::Region(_) => return,
                PromiseTree::InRegion(_) => return,
                PromiseTree::RegionLock(_) => return,
                PromiseTree::RequiresLock(_) => return,
                PromiseTree::Unique(_) => return,
                PromiseTree::Borrowed(_) => return,
                PromiseTree::RegionEffects(_) => return,
                PromiseTree::Starts => return,
                PromiseTree::Vouch(_) => return,
            }
        }
    }
}
