ghost use Rattle.std.specs.Prelude.{◌≡◌, ◌∷◌, ℕ, ◌<◌, ◌≤◌, length, map, None, Some, IfOk, replicate};
ghost use Rattle.region_tree.specs.Names.{Numbered};
ghost use Rattle.region_scrub.specs.declared.chain_state.ChainState.TheVariants.{Fresh, Rooted};
ghost use Rattle.region_scrub.specs.Clearing.{Clears};
ghost use Rattle.region_scrub.specs.Numbers.{head_at, own_numbers};
ghost use Rattle.region_scrub.specs.Rooting.{Has};
ghost use Rattle.region_scrub.specs.Stages.{Examined, IsStage};

use crate::chain_state::ChainState;
use crate::fault::RegionFault;
use crate::index::Index;
use crate::rooting::Rooting;
use crate::scrubber::{Scrubber, head_of};
use desk_base::{Name, OutOfMemory};
use region_tree::{RegionDecl, find_parents, number_names};
use std::alloc::Global;
use std::collections::{BTreeMap, BTreeSet};

// The numbers that the names of all regions have.
fn own_keys(
    alloc: Global,
    declared: &[RegionDecl],
    numbers: &BTreeMap<Name, usize>,
) -> Result<Vec<Option<usize>>, OutOfMemory>
    requires { Numbered numbers.now declared.now }
    ensures { IfOk result (λ own. own.items ≡ own_numbers declared.now) }
{
    let mut own = Vec::new(alloc);
    own.push(Some(0))?;
    own.push(Some(1))?;
    for decl in declared {
        own.push(numbers.get(&decl.name).copied())?;
    }
    Ok(own)
}

// The regions that keys lead to.
fn heads_of(
    alloc: Global,
    heads: &[Option<usize>],
    keys: &[Option<usize>],
) -> Result<Vec<Option<usize>>, OutOfMemory>
    ensures { IfOk result (λ parents. parents.items ≡ map (head_at heads.now) keys.now) }
{
    let mut parents = Vec::new(alloc);
    for key in keys {
        parents.push(head_of(heads, *key))?;
    }
    Ok(parents)
}

// A root's chain reaches one; of the declared regions nothing is known.
fn first_marks(alloc: Global, count: usize) -> Result<Vec<ChainState>, OutOfMemory>
    ensures { IfOk result (λ marks. marks.items ≡ Rooted ∷ Rooted ∷ replicate count Fresh) }
{
    let mut marks = Vec::new(alloc);
    marks.push(ChainState::Rooted)?;
    marks.push(ChainState::Rooted)?;
    for _i in 0..count {
        marks.push(ChainState::Fresh)?;
    }
    Ok(marks)
}

// No declaration is set aside.
fn none_aside(alloc: Global, count: usize) -> Result<Vec<Option<RegionFault>>, OutOfMemory>
    ensures { IfOk result (λ aside. aside.items ≡ replicate count None) }
{
    let mut aside = Vec::new(alloc);
    for _i in 0..count {
        aside.push(None)?;
    }
    Ok(aside)
}

// The numbers of all declared regions.
fn all_declared(alloc: Global, count: usize) -> Result<BTreeSet<usize>, OutOfMemory>
    ensures { IfOk result (λ work. (k : ℕ) → 2 ≤ k → k < count → Has work k) }
{
    let mut work = BTreeSet::new(alloc);
    for region in 2..count {
        work.insert(region)?;
    }
    Ok(work)
}

// All declarations, with none set aside and all to be looked at.
fn begin<'a>(alloc: Global, declared: &'a [RegionDecl]) -> Result<Scrubber<'a>, OutOfMemory>
    ensures stage { IfOk result IsStage }
    ensures examined { IfOk result (λ scrubber. Examined scrubber 0) }
    ensures declared { IfOk result (λ scrubber. scrubber.declared.now ≡ declared.entry.now) }
    ensures fresh { IfOk result (λ scrubber. scrubber.aside.items ≡ replicate (length scrubber.declared.now) None) }
{
    let numbers = number_names(alloc, declared)?;
    let same = Index::new(alloc, own_keys(alloc, declared, &numbers)?)?;
    let below = Index::new(alloc, find_parents(alloc, declared, &numbers)?)?;
    let heads = Vec::from_slice(alloc, &same.first)?;
    let parents = heads_of(alloc, &heads, &below.keys)?;
    let work = all_declared(alloc, parents.len())?;
    let rooting = Rooting {
        parents,
        marks: first_marks(alloc, declared.len())?,
        path: Vec::new(alloc),
    };
    Ok(Scrubber {
        declared,
        same,
        below,
        heads,
        aside: none_aside(alloc, declared.len())?,
        rooting,
        work,
    })
}

/// Which of the declarations are set aside, and why: as long as one of those that are left is
/// faulty, the first of them is set aside with its fault. `None` stands for one that is left. Those
/// that are left can be built.
pub fn set_faulty_aside(
    alloc: Global,
    declared: &[RegionDecl],
) -> Result<Vec<Option<RegionFault>>, OutOfMemory>
    ensures { IfOk result (λ aside. Clears declared.now aside.items) }
{
    begin(alloc, declared)?.run()
}
