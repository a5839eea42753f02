ghost use Rattle.std.specs.Prelude.{◌≡◌, ◌≢◌, ◌↔◌, ℕ, ◌∷◌, [], ◌+◌, ◌-◌, ◌<◌, ◌≤◌, length, None, Some, IfOk, IsTrue, MatchOption, OnOk, slice_set, replicate};
ghost use Rattle.region_tree.specs.Chains.{parent_at};
ghost use Rattle.region_tree.specs.Regions.{region_kinds};
ghost use Rattle.region_scrub.specs.Clearing.{Clears};
ghost use Rattle.region_scrub.specs.Indexes.{IsIndexed};
ghost use Rattle.region_scrub.specs.Numbers.{HasFault, IsLeft, Links, fault_at, head_at, key_at, link_if};
ghost use Rattle.region_scrub.specs.Stages.{Examined, IsLater, IsNext, IsSettled, IsStage, faults_by};

use crate::chain_state::ChainState;
use crate::fault::RegionFault;
use crate::index::Index;
use crate::rooting::Rooting;
use desk_base::OutOfMemory;
use region_tree::{RegionDecl, kind_of_number};
use std::collections::BTreeSet;

/// The declarations of a class while faulty ones are set aside. Regions are known by their numbers
/// among all declared ones; the key of a name is the number that it has there. `heads` has the first
/// region of each key that is left, and `work` the regions that may be faulty.
#[derive(Drop)]
pub(crate) struct Scrubber<'a> {
    pub(crate) declared: &'a [RegionDecl],
    pub(crate) same: Index,
    pub(crate) below: Index,
    pub(crate) heads: Vec<Option<usize>>,
    pub(crate) aside: Vec<Option<RegionFault>>,
    pub(crate) rooting: Rooting,
    pub(crate) work: BTreeSet<usize>,
}

// The region that a key leads to.
pub(crate) fn head_of(heads: &[Option<usize>], key: Option<usize>) -> Option<usize>
    ensures { result ≡ head_at heads.now key }
{
    match key {
        None => None,
        Some(key) => match heads.get(key) {
            None => None,
            Some(head) => *head,
        },
    }
}

// Whether a key leads to the region.
fn is_head(heads: &[Option<usize>], key: Option<usize>, region: usize) -> bool
    ensures { IsTrue result ↔ (head_at heads.now key ≡ Some region) }
{
    match head_of(heads, key) {
        None => false,
        Some(head) => head == region,
    }
}

// Whether the region is declared and not set aside.
fn stands(aside: &[Option<RegionFault>], region: usize) -> bool
    ensures stands { IsTrue result → (2 ≤ region) × IsLeft (faults_by aside.now) region }
    ensures only { 2 ≤ region → IsLeft (faults_by aside.now) region → IsTrue result }
{
    if region < 2 {
        return false;
    }
    match aside.get(region - 2) {
        None => false,
        Some(fault) => fault.is_none(),
    }
}

// The first region behind one that has its name and is left.
fn later(same: &Index, aside: &[Option<RegionFault>], region: usize) -> Option<usize>
    requires indexed { IsIndexed same.now.keys.items same.now.first.items same.now.next.items }
    requires there { region < length same.now.keys.items }
    requires low { 2 ≤ region }
    requires named { (key : ℕ) × (key_at same.now.keys.items region ≡ Some key) }
    ensures { (key : ℕ) → key_at same.now.keys.items region ≡ Some key → IsLater same.now.keys.items (faults_by aside.now) key region result }
{
    let mut next = same.next[region];
    while let Some(at) = next {
        if stands(aside, at) {
            return Some(at);
        }
        next = same.next[at];
    }
    None
}

// Gives the regions below those of a key the first of these as their parent.
fn relink(
    parents: &mut Vec<Option<usize>>,
    below: &Index,
    aside: &[Option<RegionFault>],
    heads: &[Option<usize>],
    key: usize,
)
    requires indexed { IsIndexed below.now.keys.items below.now.first.items below.now.next.items }
    requires there { key < length below.now.keys.items }
    requires roots { (k : ℕ) → k < 2 → key_at below.now.keys.items k ≡ None }
    requires long { length parents.old.items ≡ length below.now.keys.items }
    requires others { (k : ℕ) → (key_at below.now.keys.items k ≡ Some key → IsLeft (faults_by aside.now) k → ⊥)
        → parent_at parents.old.items k ≡ link_if (fault_at (faults_by aside.now) k) (head_at heads.now (key_at below.now.keys.items k)) }
    ensures { Links below.now.keys.items heads.now (faults_by aside.now) parents.new.items }
{
    let head = head_of(heads, Some(key));
    let mut next = below.first[key];
    while let Some(child) = next {
        if stands(aside, child) {
            parents[child] = head;
        }
        next = below.next[child];
    }
}

impl<'a> Scrubber<'a> {
    // The fault of a region that is left, if it has one.
    fn fault_of(&mut self, region: usize) -> Result<Option<RegionFault>, OutOfMemory>
        requires stage { IsStage self.old }
        requires low { 2 ≤ region }
        requires left { IsLeft (faults_by self.old.aside.items) region }
        ensures stage { OnOk result (IsStage self.new) }
        ensures kept { OnOk result ((k : ℕ) → IsSettled self.old k → IsSettled self.new k) }
        ensures fault { IfOk result (λ fault. MatchOption fault (IsSettled self.new region) (HasFault (region_kinds self.new.declared.now) self.new.same.keys.items self.new.heads.items self.new.rooting.parents.items region)) }
        ensures declared { self.new.declared.now ≡ self.old.declared.now }
        ensures aside { self.new.aside.items ≡ self.old.aside.items }
        ensures work { self.new.work ≡ self.old.work }
    {
        if !is_head(&self.heads, self.same.keys[region], region) {
            return Ok(Some(RegionFault::Repeated));
        }
        let Some(parent) = self.rooting.parents[region] else {
            return Ok(Some(RegionFault::UnknownParent));
        };
        if kind_of_number(self.declared, parent) != kind_of_number(self.declared, region) {
            return Ok(Some(RegionFault::Mixed));
        }
        if self.rooting.settle(region)? {
            Ok(None)
        } else {
            Ok(Some(RegionFault::Cycle))
        }
    }

    // The first faulty region, if one is left.
    fn next_faulty(&mut self) -> Result<Option<(usize, RegionFault)>, OutOfMemory>
        requires stage { IsStage self.old }
        requires examined { Examined self.old 0 }
        ensures stage { OnOk result (IsStage self.new) }
        ensures examined { IfOk result (λ next. MatchOption next (Examined self.new 0) (λ found. Examined self.new found.0)) }
        ensures next { IfOk result (λ next. MatchOption next ((k : ℕ) → 2 ≤ k → IsLeft (faults_by self.new.aside.items) k → IsSettled self.new k) (λ found. IsNext self.new found.0 found.1)) }
        ensures declared { self.new.declared.now ≡ self.old.declared.now }
        ensures aside { self.new.aside.items ≡ self.old.aside.items }
    {
        while let Some(region) = self.work.pop_first() {
            if stands(&self.aside, region) {
                if let Some(fault) = self.fault_of(region)? {
                    return Ok(Some((region, fault)));
                }
            }
        }
        Ok(None)
    }

    // Sets a region aside.
    fn set_aside(&mut self, region: usize, why: RegionFault) -> Result<(), OutOfMemory>
        requires stage { IsStage self.old }
        requires examined { Examined self.old region }
        requires low { 2 ≤ region }
        requires left { IsLeft (faults_by self.old.aside.items) region }
        ensures stage { OnOk result (IsStage self.new) }
        ensures examined { OnOk result (Examined self.new 0) }
        ensures aside { OnOk result (self.new.aside.items ≡ slice_set self.old.aside.items (region - 2) (Some why)) }
        ensures declared { self.new.declared.now ≡ self.old.declared.now }
    {
        self.rooting
            .forget(&self.same, &self.below, region, &mut self.work)?;
        self.aside[region - 2] = Some(why);
        self.rooting.parents[region] = None;
        self.rooting.marks[region] = ChainState::Lost;
        let key = self.same.keys[region];
        if is_head(&self.heads, key, region) {
            if let Some(key) = key {
                self.heads[key] = later(&self.same, &self.aside, region);
                relink(
                    &mut self.rooting.parents,
                    &self.below,
                    &self.aside,
                    &self.heads,
                    key,
                );
            }
        }
        Ok(())
    }

    /// Sets faulty declarations aside, one after another, until those that are left have no fault.
    pub(crate) fn run(mut self) -> Result<Vec<Option<RegionFault>>, OutOfMemory>
        requires stage { IsStage self }
        requires examined { Examined self 0 }
        requires fresh { self.aside.items ≡ replicate (length self.declared.now) None }
        ensures { IfOk result (λ aside. Clears self.entry.declared.now aside.items) }
    {
        while let Some((region, why)) = self.next_faulty()? {
            self.set_aside(region, why)?;
        }
        let Scrubber {
            declared: _,
            same: _,
            below: _,
            heads: _,
            aside,
            rooting: _,
            work: _,
        } = self;
        Ok(aside)
    }
}
