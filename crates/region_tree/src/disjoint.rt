ghost use Rattle.std.specs.Prelude.{◌≡◌, ◌↔◌, ◌<◌, ◌⊎◌, ℕ, length, IfOk, IsTrue};
ghost use Rattle.std.specs.Bool.{OnTrue, OnFalse};
ghost use Rattle.region_tree.specs.Disjoint.{AreOf, IsHeld, MarksUp, OverlapsHeld, UnderHeld};
ghost use Rattle.region_tree.specs.Tree.{parents_in};

use crate::tree::{RegionId, RegionTree};
use desk_base::OutOfMemory;
use std::alloc::Global;

// How a region stands to those that are held: it is one; one is below it; one is above it; or none
// is below it, and it is not known whether one is above.
#[derive(Clone, Copy, Debug)]
pub(crate) enum HeldState {
    Free,
    Held,
    Over,
    Under,
}

/// Regions of one tree of which none is under another.
#[derive(Drop)]
pub struct DisjointRegions {
    states: Vec<HeldState>,
}

impl DisjointRegions {
    /// No regions of the tree.
    pub fn new(alloc: Global, tree: &RegionTree) -> Result<DisjointRegions, OutOfMemory>
        ensures of { IfOk result (AreOf (parents_in tree.now)) }
        ensures none { IfOk result (λ regions. (k : ℕ) → IsHeld regions k → ⊥) }
    {
        let mut states = Vec::new(alloc);
        for _i in 0..tree.parents.len() {
            states.push(HeldState::Free)?;
        }
        Ok(DisjointRegions { states })
    }

    // Whether the region is under one that is held. It climbs through free regions alone.
    fn is_under_held(&self, tree: &RegionTree, start: usize) -> bool
        requires of { AreOf (parents_in tree.now) self.now }
        requires within { start < length (parents_in tree.now) }
        ensures some { OnTrue result (UnderHeld (parents_in tree.now) self.now.states.items start) }
        ensures none { OnFalse result (UnderHeld (parents_in tree.now) self.now.states.items start → ⊥) }
    {
        let mut at = start;
        while let HeldState::Free = self.states[at] {
            match tree.parents[at] {
                Some(parent) => at = parent,
                None => return false,
            }
        }
        matches!(self.states[at], HeldState::Held | HeldState::Under)
    }

    // Gives the standing to the free regions on the way up from this one.
    fn mark_up(&mut self, tree: &RegionTree, start: usize, given: HeldState)
        requires long { length self.old.states.items ≡ length (parents_in tree.now) }
        requires within { start < length (parents_in tree.now) }
        ensures { MarksUp (parents_in tree.now) self.old.states.items self.new.states.items start given }
    {
        let mut at = start;
        while let HeldState::Free = self.states[at] {
            self.states[at] = given;
            match tree.parents[at] {
                Some(parent) => at = parent,
                None => return,
            }
        }
    }

    /// Adds a region, unless it is one of these or under or above one of them; answers whether it
    /// was added. The tree is that of `new`. It takes no memory.
    pub fn add(&mut self, tree: &RegionTree, region: RegionId) -> bool
        requires of { AreOf (parents_in tree.now) self.old }
        requires within { region.number < length (parents_in tree.now) }
        ensures apart { OnTrue result (OverlapsHeld (parents_in tree.now) self.old region.number → ⊥) }
        ensures overlaps { OnFalse result (OverlapsHeld (parents_in tree.now) self.old region.number) }
        ensures held { (k : ℕ) → IsHeld self.new k ↔ (IsHeld self.old k ⊎ (IsTrue result × (k ≡ region.number))) }
        ensures of { AreOf (parents_in tree.now) self.new }
    {
        let start = region.number;
        let HeldState::Free = self.states[start] else {
            return false;
        };
        if self.is_under_held(tree, start) {
            self.mark_up(tree, start, HeldState::Under);
            return false;
        }
        self.mark_up(tree, start, HeldState::Over);
        self.states[start] = HeldState::Held;
        true
    }
}
