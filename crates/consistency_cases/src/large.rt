//! Large graphs, for measuring.

use crate::case::{Case, Link};
use desk_base::OutOfMemory;
use std::alloc::Global;

fn put_case(
    alloc: Global,
    cases: &mut Vec<Case>,
    on: usize,
    to: usize,
    links: usize,
) -> Result<(), OutOfMemory> {
    let mut way = Vec::new(alloc);
    for _ in 0..links {
        way.push(Link::Promise(to))?;
    }
    let mut ways = Vec::new(alloc);
    ways.push(way)?;
    cases.push(Case { on, ways })?;
    Ok(())
}

fn failing(alloc: Global, on: usize) -> Case {
    Case {
        on,
        ways: Vec::new(alloc),
    }
}

/// Each promise but the last rests on the next, and the last fails: one leaves in each round.
pub fn chain(alloc: Global, promises: usize) -> Result<Vec<Case>, OutOfMemory> {
    let mut cases = Vec::new(alloc);
    for to in 1..promises {
        put_case(alloc, &mut cases, to - 1, to, 1)?;
    }
    cases.push(failing(alloc, promises.saturating_sub(1)))?;
    Ok(cases)
}

/// Each promise rests on the first by so many links, and the first fails: all but it leave in the
/// second round.
pub fn star(alloc: Global, promises: usize, links: usize) -> Result<Vec<Case>, OutOfMemory> {
    let mut cases = Vec::new(alloc);
    cases.push(failing(alloc, 0))?;
    for on in 1..promises {
        put_case(alloc, &mut cases, on, 0, links)?;
    }
    Ok(cases)
}
