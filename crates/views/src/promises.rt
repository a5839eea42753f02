ghost use Rattle.std.specs.Prelude.{◌≡◌, IfOk, length};
ghost use Rattle.views.specs.Indexed.{ArePlaces};
ghost use Rattle.views.specs.Indexes.{Forgets, UnitsTo, places_in};

use crate::firsts::{index_assumed, index_locks, index_standing, index_texts};
use desk_base::{Items, Name, OutOfMemory, PromiseKey, Text};
use promise_scrub::{Standing, Surface};
use std::alloc::Global;
use std::collections::BTreeMap;

/// Where the promises of a surface are in its lists: the first of each key that stands or is assumed,
/// the first that gives a lock of each name, all that stand at each unit, and the first place of each
/// vouched unit.
#[derive(Drop)]
pub(crate) struct PromisePlaces {
    pub(crate) standing: BTreeMap<PromiseKey, usize>,
    pub(crate) assumed: BTreeMap<PromiseKey, usize>,
    pub(crate) locks: BTreeMap<Name, usize>,
    pub(crate) units: BTreeMap<Text, Items<usize>>,
    pub(crate) vouched: BTreeMap<Text, usize>,
}

/// The places at the unit, moved out of the map.
fn take_places(alloc: Global, index: &mut BTreeMap<Text, Items<usize>>, unit: &Text) -> Items<usize>
    ensures places { result ≡ places_in index.old unit.now }
    ensures left { Forgets index.old index.new unit.now }
{
    match index.remove(unit) {
        Some(places) => places,
        None => Items::new(alloc),
    }
}

/// The places of the promises at each unit.
fn index_units(
    alloc: Global,
    standing: &[Standing],
) -> Result<BTreeMap<Text, Items<usize>>, OutOfMemory>
    ensures { IfOk result (λ index. UnitsTo index (length standing.now) standing.now) }
{
    let mut index = BTreeMap::new(alloc);
    for (at, promise) in standing.iter().enumerate() {
        let mut places = take_places(alloc, &mut index, &promise.key.target);
        places.push(at)?;
        let unit = promise.key.target.clone()?;
        index.insert(unit, places)?;
    }
    Ok(index)
}

/// The places of the promises of a surface.
pub(crate) fn places_of(alloc: Global, surface: &Surface) -> Result<PromisePlaces, OutOfMemory>
    ensures { IfOk result (ArePlaces surface.now) }
{
    let standing = index_standing(alloc, surface.standing.as_slice())?;
    let assumed = index_assumed(alloc, surface.assumptions.as_slice())?;
    let locks = index_locks(alloc, surface.standing.as_slice())?;
    let units = index_units(alloc, surface.standing.as_slice())?;
    let vouched = index_texts(alloc, surface.vouched.as_slice())?;
    Ok(PromisePlaces {
        standing,
        assumed,
        locks,
        units,
        vouched,
    })
}
