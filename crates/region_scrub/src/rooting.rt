ghost use Rattle.std.specs.Prelude.{◌≡◌, ◌≢◌, ℕ, ◌+◌, ◌<◌, ◌≤◌, [], IfOk, OnOk, Some, length, sum_by};
ghost use Rattle.std.specs.Bool.{OnTrue, OnFalse};
ghost use Rattle.region_tree.specs.Chains.{parent_at};
ghost use Rattle.region_scrub.specs.declared.chain_state.ChainState.TheVariants.{Fresh, Passing};
ghost use Rattle.region_scrub.specs.Indexes.{IsIndexed};
ghost use Rattle.region_scrub.specs.Rooting.{Fits, Forgets, ForgetsBut, IsAheadBelow, IsClimbed, IsForgetting, IsForgettingAt, IsForgettingFrom, IsMarked, IsPassed, IsWithin, KeepsTops, Reaches, SharesKey, Stays, known_weight, mark_at};
ghost use Rattle.region_scrub.specs.Rooting as spec;

use crate::chain_state::ChainState;
use crate::index::Index;
use desk_base::OutOfMemory;
use std::alloc::Global;
use std::collections::BTreeSet;

fn is_fresh(mark: ChainState) -> bool
    ensures { result ≡ spec.is_fresh mark }
{
    matches!(mark, ChainState::Fresh)
}

// The first number below whose key is that of the region. A key past the end is nobody's.
fn first_below(same: &Index, below: &Index, region: usize) -> Option<usize>
    requires there { region < length same.now.keys.items }
    requires indexed { IsIndexed below.now.keys.items below.now.first.items below.now.next.items }
    ensures shares { SharesKey same.now.keys.items below.now.keys.items region result }
    ensures ahead { IsAheadBelow same.now.keys.items below.now.keys.items region result }
{
    match same.keys[region] {
        Some(key) if key < below.first.len() => below.first[key],
        _ => None,
    }
}

/// The parents of regions by their numbers, and what is known of each one's chain of parents. As
/// long as the parents stay, a chain is climbed once.
#[derive(Drop)]
pub(crate) struct Rooting {
    pub(crate) parents: Vec<Option<usize>>,
    pub(crate) marks: Vec<ChainState>,
    pub(crate) path: Vec<usize>,
}

impl Rooting {
    // Climbs from a region as long as nothing is known, and puts what it passes on the path. It
    // answers whether the chain reaches a root.
    fn climb(&mut self, start: usize) -> Result<bool, OutOfMemory>
        requires within { IsWithin self.old.parents.items }
        requires marked { IsMarked self.old.parents.items self.old.marks.items }
        requires empty { self.old.path.items ≡ [] }
        requires there { start < length self.old.marks.items }
        ensures parents { self.new.parents.items ≡ self.old.parents.items }
        ensures climbed { IfOk result (λ reaches. IsClimbed self.new.parents.items self.new.marks.items self.new.path.items reaches) }
        ensures passed { OnOk result (IsPassed self.new.marks.items self.new.path.items) }
        ensures begun { OnOk result (mark_at self.new.marks.items start ≢ Fresh) }
        ensures stays { OnOk result (Stays self.old.marks.items self.new.marks.items) }
    {
        let mut at = start;
        while is_fresh(self.marks[at]) {
            self.path.push(at)?;
            self.marks[at] = ChainState::Passing;
            match self.parents[at] {
                Some(parent) => at = parent,
                None => return Ok(false),
            }
        }
        Ok(matches!(self.marks[at], ChainState::Rooted))
    }

    // Gives each region of the path its mark.
    fn finish(&mut self, reaches: bool)
        requires climbed { IsClimbed self.old.parents.items self.old.marks.items self.old.path.items reaches }
        requires passed { IsPassed self.old.marks.items self.old.path.items }
        ensures parents { self.new.parents.items ≡ self.old.parents.items }
        ensures marked { IsMarked self.new.parents.items self.new.marks.items }
        ensures empty { self.new.path.items ≡ [] }
        ensures stays { (k : ℕ) → mark_at self.old.marks.items k ≢ Passing → mark_at self.new.marks.items k ≡ mark_at self.old.marks.items k }
        ensures begun { (k : ℕ) → mark_at self.old.marks.items k ≢ Fresh → mark_at self.new.marks.items k ≢ Fresh }
    {
        let mark = if reaches {
            ChainState::Rooted
        } else {
            ChainState::Lost
        };
        while let Some(region) = self.path.pop() {
            self.marks[region] = mark;
        }
    }

    /// Whether the chain of the region's parents reaches a root.
    pub(crate) fn settle(&mut self, region: usize) -> Result<bool, OutOfMemory>
        requires within { IsWithin self.old.parents.items }
        requires marked { IsMarked self.old.parents.items self.old.marks.items }
        requires empty { self.old.path.items ≡ [] }
        requires there { region < length self.old.marks.items }
        ensures parents { self.new.parents.items ≡ self.old.parents.items }
        ensures marked { OnOk result (IsMarked self.new.parents.items self.new.marks.items) }
        ensures empty { OnOk result (self.new.path.items ≡ []) }
        ensures reaches { IfOk result (λ reaches. Reaches reaches self.new.parents.items region) }
        ensures known { IfOk result (λ reaches. mark_at self.new.marks.items region ≡ spec.mark_of reaches) }
        ensures stays { OnOk result (Stays self.old.marks.items self.new.marks.items) }
    {
        if is_fresh(self.marks[region]) {
            let reaches = self.climb(region)?;
            self.finish(reaches);
        }
        Ok(matches!(self.marks[region], ChainState::Rooted))
    }

    // Whether something is known of the region, and the other one is its parent.
    fn is_known_below(&self, region: usize, parent: usize) -> bool
        requires there { region < length self.now.parents.items }
        requires long { length self.now.marks.items ≡ length self.now.parents.items }
        ensures known { OnTrue result (mark_at self.now.marks.items region ≢ Fresh) }
        ensures below { OnTrue result (parent_at self.now.parents.items region ≡ Some parent) }
        ensures other { OnFalse result (parent_at self.now.parents.items region ≡ Some parent → mark_at self.now.marks.items region ≡ Fresh) }
    {
        match self.parents[region] {
            Some(above) => above == parent && !is_fresh(self.marks[region]),
            None => false,
        }
    }

    // Forgets what is known of a region if it is right below the other one, and puts it on the path
    // and into the work.
    fn forget_child(
        &mut self,
        region: usize,
        child: usize,
        work: &mut BTreeSet<usize>,
    ) -> Result<(), OutOfMemory>
        requires there { child < length self.old.parents.items }
        requires forgetting { IsForgettingFrom self.old.parents.items self.old.marks.items self.old.path.items region (Some child) }
        ensures parents { self.new.parents.items ≡ self.old.parents.items }
        ensures forgetting { OnOk result (IsForgettingFrom self.new.parents.items self.new.marks.items self.new.path.items region (Some (child + 1))) }
        ensures forgets { OnOk result (Forgets self.old.marks.items self.new.marks.items work.old work.new) }
        ensures tops { OnOk result (KeepsTops self.new.parents.items self.old.marks.items self.new.marks.items) }
        ensures weight { OnOk result (length self.new.path.items + sum_by known_weight self.new.marks.items ≤ length self.old.path.items + sum_by known_weight self.old.marks.items) }
    {
        if !self.is_known_below(child, region) {
            return Ok(());
        }
        self.path.push(child)?;
        work.insert(child)?;
        self.marks[child] = ChainState::Fresh;
        Ok(())
    }

    // Forgets what is known of the regions right below one, and puts them on the path and into the
    // work.
    fn forget_below(
        &mut self,
        same: &Index,
        below: &Index,
        region: usize,
        work: &mut BTreeSet<usize>,
    ) -> Result<(), OutOfMemory>
        requires long { length same.now.keys.items ≡ length self.old.parents.items }
        requires as_long { length below.now.keys.items ≡ length self.old.parents.items }
        requires indexed { IsIndexed below.now.keys.items below.now.first.items below.now.next.items }
        requires fits { Fits same.now.keys.items below.now.keys.items self.old.parents.items }
        requires forgetting { IsForgettingAt self.old.parents.items self.old.marks.items self.old.path.items region }
        requires there { region < length self.old.parents.items }
        ensures parents { self.new.parents.items ≡ self.old.parents.items }
        ensures forgetting { OnOk result (IsForgetting self.new.parents.items self.new.marks.items self.new.path.items) }
        ensures forgets { OnOk result (Forgets self.old.marks.items self.new.marks.items work.old work.new) }
        ensures tops { OnOk result (KeepsTops self.new.parents.items self.old.marks.items self.new.marks.items) }
        ensures weight { OnOk result (length self.new.path.items + sum_by known_weight self.new.marks.items ≤ length self.old.path.items + sum_by known_weight self.old.marks.items) }
    {
        let mut next = first_below(same, below, region);
        while let Some(child) = next {
            self.forget_child(region, child, work)?;
            next = below.next[child];
        }
        Ok(())
    }

    /// Forgets what is known of the region and of all below it, and puts those below it into the
    /// work.
    pub(crate) fn forget(
        &mut self,
        same: &Index,
        below: &Index,
        region: usize,
        work: &mut BTreeSet<usize>,
    ) -> Result<(), OutOfMemory>
        requires long { length same.now.keys.items ≡ length self.old.parents.items }
        requires as_long { length below.now.keys.items ≡ length self.old.parents.items }
        requires indexed { IsIndexed below.now.keys.items below.now.first.items below.now.next.items }
        requires fits { Fits same.now.keys.items below.now.keys.items self.old.parents.items }
        requires marked { IsMarked self.old.parents.items self.old.marks.items }
        requires roots { IsWithin self.old.parents.items }
        requires empty { self.old.path.items ≡ [] }
        requires there { region < length self.old.parents.items }
        requires low { 2 ≤ region }
        ensures parents { self.new.parents.items ≡ self.old.parents.items }
        ensures marked { OnOk result (IsMarked self.new.parents.items self.new.marks.items) }
        ensures empty { OnOk result (self.new.path.items ≡ []) }
        ensures fresh { OnOk result (mark_at self.new.marks.items region ≡ Fresh) }
        ensures forgets { OnOk result (ForgetsBut region self.old.marks.items self.new.marks.items work.old work.new) }
    {
        self.marks[region] = ChainState::Fresh;
        self.path.push(region)?;
        while let Some(at) = self.path.pop() {
            self.forget_below(same, below, at, work)?;
        }
        Ok(())
    }
}
