ghost use Rattle.std.specs.Prelude.{◌≡◌, ◌≢◌, ◌↔◌, ℕ, [], ◌<◌, ◌≤◌, length, IfOk, IsTrue, None, OnOk, Some, replicate};
ghost use Rattle.std.specs.Bool.{OnTrue, OnFalse};
ghost use Rattle.region_tree.specs.declared.chain_state.ChainState.TheVariants.{Fresh};
ghost use Rattle.region_tree.specs.Marks.{mark_at, Known, Marked, LostClosed, LostFalls, OnPath, ClimbsToRank, IsSettled, StaysBegun};
ghost use Rattle.region_tree.specs.Chains.{IsRooted, parent_at};

use crate::chain_state::ChainState;
use desk_base::OutOfMemory;
use std::alloc::Global;

// Climbs chains of parents. Each region is passed once.
#[derive(Drop)]
pub(crate) struct Climber {
    pub(crate) parents: Vec<Option<usize>>,
    pub(crate) marks: Vec<ChainState>,
    path: Vec<usize>,
    next: usize,
}

impl Climber {
    // Climbs from a region, and puts the fresh regions on its way on the path. It answers whether
    // the path leads to a ranked region.
    fn climb(&mut self, start: usize) -> Result<bool, OutOfMemory>
        requires marked { Marked self.old.parents.items self.old.marks.items self.old.next }
        requires lost { LostClosed self.old.parents.items self.old.marks.items }
        requires settled { IsSettled self.old.marks.items }
        requires empty { self.old.path.items ≡ [] }
        requires within { start < length self.old.marks.items }
        ensures parents { self.new.parents.items ≡ self.old.parents.items }
        ensures marked { OnOk result (Marked self.new.parents.items self.new.marks.items self.new.next) }
        ensures lost { OnOk result (LostClosed self.new.parents.items self.new.marks.items) }
        ensures path { OnOk result (OnPath self.new.marks.items self.new.path.items) }
        ensures rooted { IfOk result (λ r. OnTrue r (ClimbsToRank self.new.parents.items self.new.marks.items self.new.path.items)) }
        ensures falls { IfOk result (λ r. OnFalse r (LostFalls self.new.parents.items self.new.marks.items self.new.path.items)) }
        ensures begun { OnOk result (mark_at self.new.marks.items start ≢ Fresh) }
        ensures stays { OnOk result (StaysBegun self.old.marks.items self.new.marks.items) }
    {
        let mut at = start;
        while let ChainState::Fresh = self.marks[at] {
            self.path.push(at)?;
            self.marks[at] = ChainState::Passing;
            match self.parents[at] {
                Some(parent) => at = parent,
                None => return Ok(false),
            }
        }
        Ok(matches!(self.marks[at], ChainState::Ranked(_)))
    }

    // Ranks the regions of the path, which leads to a ranked one, from there down.
    fn rank_path(&mut self)
        requires marked { Marked self.old.parents.items self.old.marks.items self.old.next }
        requires lost { LostClosed self.old.parents.items self.old.marks.items }
        requires path { OnPath self.old.marks.items self.old.path.items }
        requires rooted { ClimbsToRank self.old.parents.items self.old.marks.items self.old.path.items }
        ensures parents { self.new.parents.items ≡ self.old.parents.items }
        ensures marked { Marked self.new.parents.items self.new.marks.items self.new.next }
        ensures lost { LostClosed self.new.parents.items self.new.marks.items }
        ensures settled { IsSettled self.new.marks.items }
        ensures empty { self.new.path.items ≡ [] }
        ensures stays { StaysBegun self.old.marks.items self.new.marks.items }
    {
        while let Some(region) = self.path.pop() {
            self.marks[region] = ChainState::Ranked(self.next);
            self.next += 1;
        }
    }

    // Marks the regions of the path, whose chains reach no root, as lost.
    fn lose_path(&mut self)
        requires marked { Marked self.old.parents.items self.old.marks.items self.old.next }
        requires falls { LostFalls self.old.parents.items self.old.marks.items self.old.path.items }
        requires path { OnPath self.old.marks.items self.old.path.items }
        ensures parents { self.new.parents.items ≡ self.old.parents.items }
        ensures marked { Marked self.new.parents.items self.new.marks.items self.new.next }
        ensures lost { LostClosed self.new.parents.items self.new.marks.items }
        ensures settled { IsSettled self.new.marks.items }
        ensures empty { self.new.path.items ≡ [] }
        ensures stays { StaysBegun self.old.marks.items self.new.marks.items }
    {
        while let Some(region) = self.path.pop() {
            self.marks[region] = ChainState::Lost;
        }
    }

    // Finds out whether the chain of a region reaches a root.
    fn settle(&mut self, start: usize) -> Result<(), OutOfMemory>
        requires marked { Marked self.old.parents.items self.old.marks.items self.old.next }
        requires lost { LostClosed self.old.parents.items self.old.marks.items }
        requires settled { IsSettled self.old.marks.items }
        requires empty { self.old.path.items ≡ [] }
        requires within { start < length self.old.marks.items }
        ensures parents { self.new.parents.items ≡ self.old.parents.items }
        ensures marked { OnOk result (Marked self.new.parents.items self.new.marks.items self.new.next) }
        ensures lost { OnOk result (LostClosed self.new.parents.items self.new.marks.items) }
        ensures settled { OnOk result (IsSettled self.new.marks.items) }
        ensures empty { OnOk result (self.new.path.items ≡ []) }
        ensures begun { OnOk result (mark_at self.new.marks.items start ≢ Fresh) }
        ensures stays { OnOk result (StaysBegun self.old.marks.items self.new.marks.items) }
    {
        if self.climb(start)? {
            self.rank_path();
        } else {
            self.lose_path();
        }
        Ok(())
    }

    fn settle_all(&mut self) -> Result<(), OutOfMemory>
        requires marked { Marked self.old.parents.items self.old.marks.items self.old.next }
        requires lost { LostClosed self.old.parents.items self.old.marks.items }
        requires settled { IsSettled self.old.marks.items }
        requires empty { self.old.path.items ≡ [] }
        ensures parents { self.new.parents.items ≡ self.old.parents.items }
        ensures known { OnOk result (Known self.new.parents.items self.new.marks.items self.new.next) }
    {
        for start in 0..self.marks.len() {
            self.settle(start)?;
        }
        Ok(())
    }

    /// Climbs all chains of these parents; the regions 0 and 1 are the roots.
    pub(crate) fn new(alloc: Global, parents: Vec<Option<usize>>) -> Result<Climber, OutOfMemory>
        requires roots { 2 ≤ length parents.items }
        requires within { (k x : ℕ) → parent_at parents.items k ≡ Some x → x < length parents.items }
        ensures parents { IfOk result (λ c. c.parents.items ≡ parents.items) }
        ensures known { IfOk result (λ c. Known c.parents.items c.marks.items c.next) }
    {
        let mut marks = fresh_marks(alloc, parents.len())?;
        marks[0] = ChainState::Ranked(0);
        marks[1] = ChainState::Ranked(0);
        let mut climber = Climber {
            parents,
            marks,
            path: Vec::new(alloc),
            next: 1,
        };
        climber.settle_all()?;
        Ok(climber)
    }

    /// The parents, and what is known of each region.
    pub(crate) fn into_parts(self) -> (Vec<Option<usize>>, Vec<ChainState>)
        ensures parents { result.0.items ≡ self.parents.items }
        ensures marks { result.1.items ≡ self.marks.items }
    {
        let Climber {
            parents,
            marks,
            path: _,
            next: _,
        } = self;
        (parents, marks)
    }

    /// Whether a chain of parents leads from the region to a root.
    pub(crate) fn is_rooted(&self, region: usize) -> bool
        requires known { Known self.now.parents.items self.now.marks.items self.now.next }
        requires within { region < length self.now.parents.items }
        ensures { IsTrue result ↔ IsRooted self.now.parents.items region }
    {
        matches!(self.marks[region], ChainState::Ranked(_))
    }
}

fn fresh_marks(alloc: Global, count: usize) -> Result<Vec<ChainState>, OutOfMemory>
    ensures { IfOk result (λ marks. marks.items ≡ replicate count Fresh) }
{
    let mut marks = Vec::new(alloc);
    for _i in 0..count {
        marks.push(ChainState::Fresh)?;
    }
    Ok(marks)
}
