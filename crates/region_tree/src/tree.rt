ghost use Rattle.std.specs.Prelude.{◌≡◌, ◌<◌, ℕ, List, Option, Some, length};
ghost use Rattle.region_tree.specs.Chains.{parent_at};
ghost use Rattle.region_tree.specs.Marks.{mark_at, rank_of};
ghost use Rattle.region_tree.specs.Names.{number_at};

use crate::chain_state::ChainState;
use desk_base::Name;
use std::collections::BTreeMap;

/// A region of a tree.
#[derive(Clone, Copy, Debug, PartialEq, Eq)]
pub struct RegionId {
    pub(crate) number: usize,
}

/// The regions of a class and of its fields. The parent of a region has a lower rank.
#[derive(Drop)]
pub struct RegionTree {
    pub(crate) numbers: BTreeMap<Name, usize>,
    pub(crate) places: BTreeMap<Name, usize>,
    pub(crate) parents: Vec<Option<usize>>,
    pub(crate) marks: Vec<ChainState>,
    ghost long: { length marks.items ≡ length parents.items },
    ghost within: { (k x : ℕ) → parent_at parents.items k ≡ Some x → x < length parents.items },
    ghost falls: { (k x : ℕ) → parent_at parents.items k ≡ Some x
        → rank_of (mark_at marks.items x) < rank_of (mark_at marks.items k) },
    ghost numbered: { (name : List ℕ) (k : ℕ) → number_at numbers name ≡ Some k → k < length parents.items },
    ghost placed: { (field : List ℕ) (k : ℕ) → number_at places field ≡ Some k → k < length parents.items },
}

impl RegionTree {
    ghost use Rattle.std.specs.Prelude.{◌↔◌, IfSome, IsTrue, MatchOption, None};
    ghost use Rattle.region_tree.specs.Chains.{IsUnder};
    ghost use Rattle.region_tree.specs.Tree.{parents_in, place_in, region_in};

    /// The region of the name; `None` exactly where no region has it. It takes no memory.
    pub fn region(&self, name: &Name) -> Option<RegionId>
        ensures region { MatchOption result (region_in self.now name.now ≡ None) (λ id. region_in self.now name.now ≡ Some id.number) }
        ensures within { IfSome result (λ id. id.number < length (parents_in self.now)) }
    {
        let number = *self.numbers.get(name)?;
        Some(RegionId { number })
    }

    /// The region of the field; `None` exactly where no such field was put. It takes no memory.
    pub fn region_of(&self, field: &Name) -> Option<RegionId>
        ensures region { MatchOption result (place_in self.now field.now ≡ None) (λ id. place_in self.now field.now ≡ Some id.number) }
        ensures within { IfSome result (λ id. id.number < length (parents_in self.now)) }
    {
        let number = *self.places.get(field)?;
        Some(RegionId { number })
    }

    fn rank(&self, region: usize) -> usize
        requires { region < length (parents_in self.now) }
        ensures { result ≡ rank_of (mark_at self.now.marks.items region) }
    {
        match self.marks[region] {
            ChainState::Ranked(rank) => rank,
            _ => 0,
        }
    }

    /// Whether `a` is `b` or a chain of parents leads from `a` to `b`; both are of this tree. It
    /// climbs from `a` at most to the height of `b`, and takes no memory.
    pub fn is_under(&self, a: RegionId, b: RegionId) -> bool
        requires a_within { a.number < length (parents_in self.now) }
        requires b_within { b.number < length (parents_in self.now) }
        ensures { IsTrue result ↔ IsUnder (parents_in self.now) a.number b.number }
    {
        let height = self.rank(b.number);
        let mut at = a.number;
        while self.rank(at) > height {
            match self.parents[at] {
                Some(parent) => at = parent,
                None => return false,
            }
        }
        at == b.number
    }
}
