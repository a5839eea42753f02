ghost use Rattle.std.specs.Prelude.{◌≡◌, ◌&&◌, not, true, false, [], ◌∷◌, IfOk, OnOk, length, map};
ghost use Rattle.consistency.specs.Flat.{Fits};
ghost use Rattle.consistency.specs.Numbers.{Numbered};
ghost use Rattle.consistency.specs.Wired.{IsWired};
ghost use Rattle.consistency.specs.Flattening.{AddsLinks, AddsWays, FlatTo, HasWays, has_word, ways_of};

use crate::graph::{Clause, Link};
use crate::numbers::short;
use desk_base::OutOfMemory;
use std::alloc::Global;

/// The findings of a graph as lists: promises, findings, alternatives and links by number.
#[derive(Drop)]
pub(crate) struct Flat {
    pub(crate) promises: u32,
    /// The promise of each finding.
    pub(crate) on: Vec<u32>,
    /// The finding of each alternative.
    pub(crate) finding: Vec<u32>,
    /// Whether an alternative has a link that never survives.
    pub(crate) barred: Vec<bool>,
    /// The alternative of each link to a promise.
    pub(crate) alternative: Vec<u32>,
    /// The promise that each such link leads to.
    pub(crate) target: Vec<u32>,
}

fn holds_word(links: &[Link]) -> bool
    ensures { result ≡ has_word links.now }
{
    links.iter().any(|link| match link {
        Link::Promise(_) => false,
        Link::Word(_) => true,
    })
}

fn is_barred(given: bool, links: &[Link]) -> bool
    ensures { result ≡ (not given && has_word links.now) }
{
    !given && holds_word(links)
}

// Puts the links of an alternative at the end.
fn put_links(flat: &mut Flat, way: u32, links: &[Link]) -> Result<(), OutOfMemory>
    ensures { OnOk result (AddsLinks flat.old flat.new way links.now) }
{
    for link in links {
        match *link {
            Link::Promise(promise) => {
                flat.alternative.push(way)?;
                flat.target.push(promise)?;
            }
            Link::Word(_) => {}
        }
    }
    Ok(())
}

// Puts an alternative of a finding at the end; one that rests on a word is barred unless words count.
fn put_way(flat: &mut Flat, finding: u32, given: bool, links: &[Link]) -> Result<(), OutOfMemory>
    ensures { OnOk result (AddsWays given flat.old flat.new ((finding, links.now) ∷ [])) }
{
    let way = short(flat.finding.len())?;
    flat.finding.push(finding)?;
    flat.barred.push(is_barred(given, links))?;
    put_links(flat, way, links)?;
    Ok(())
}

fn put_ways(
    flat: &mut Flat,
    finding: u32,
    given: bool,
    ways: &[Vec<Link>],
) -> Result<(), OutOfMemory>
    ensures { OnOk result (AddsWays given flat.old flat.new (ways_of finding ways.now)) }
{
    for links in ways {
        put_way(flat, finding, given, links)?;
    }
    Ok(())
}

fn empty_flat(alloc: Global, promises: u32) -> Flat
    ensures promises { result.promises ≡ promises }
    ensures on { result.on.items ≡ [] }
    ensures ways { HasWays true [] result × HasWays false [] result }
{
    Flat {
        promises,
        on: Vec::new(alloc),
        finding: Vec::new(alloc),
        barred: Vec::new(alloc),
        alternative: Vec::new(alloc),
        target: Vec::new(alloc),
    }
}

fn lists_of(
    alloc: Global,
    promises: u32,
    clauses: &[Clause],
    given: bool,
) -> Result<Flat, OutOfMemory>
    ensures promises { IfOk result (λ flat. flat.promises ≡ promises) }
    ensures on { IfOk result (λ flat. flat.on.items ≡ map (λ c. c.on) clauses.now) }
    ensures ways { IfOk result (λ flat. FlatTo given clauses.now (length clauses.now) flat) }
{
    let mut flat = empty_flat(alloc, promises);
    for i in 0..clauses.len() {
        flat.on.push(clauses[i].on)?;
        put_ways(&mut flat, short(i)?, given, &clauses[i].alternatives)?;
    }
    Ok(flat)
}

/// The findings as lists; words count where `given` is true. Numbers that have no room in 32 bits
/// are taken as want of memory.
pub(crate) fn flat_of(
    alloc: Global,
    promises: usize,
    clauses: &[Clause],
    given: bool,
) -> Result<Flat, OutOfMemory>
    requires { IsWired promises clauses.now }
    ensures fits { IfOk result (λ flat. Fits flat) }
    ensures promises { IfOk result (λ flat. flat.promises ≡ promises) }
    ensures numbered { IfOk result (λ flat. Numbered given clauses.now flat) }
{
    if promises > 0x7fff_ffff {
        return Err(OutOfMemory);
    }
    short(clauses.len())?;
    let flat = lists_of(alloc, promises as u32, clauses, given)?;
    short(flat.finding.len())?;
    Ok(flat)
}
