//! A line of a graph: `on PROMISE` and its alternatives, each begun by `or`, of links `PROMISE` or
//! `wWORD`.

use crate::case::{Case, Link};
use desk_base::OutOfMemory;
use std::alloc::Global;

fn link_in(word: &str) -> Option<Link> {
    match word.strip_prefix("w") {
        None => Some(Link::Promise(word.parse::<usize>().ok()?)),
        Some(number) => Some(Link::Word(number.parse::<usize>().ok()?)),
    }
}

fn put_word(alloc: Global, ways: &mut Vec<Vec<Link>>, word: &str) -> Result<(), OutOfMemory> {
    if word == "or" {
        ways.push(Vec::new(alloc))?;
        return Ok(());
    }
    if let Some(link) = link_in(word)
        && let Some(way) = ways.last_mut()
    {
        way.push(link)?;
    }
    Ok(())
}

/// The finding on a promise whose alternatives the rest of a line says.
pub fn case_in(alloc: Global, on: usize, rest: &str) -> Result<Case, OutOfMemory> {
    let mut ways = Vec::new(alloc);
    for word in rest.split_whitespace() {
        put_word(alloc, &mut ways, word)?;
    }
    Ok(Case { on, ways })
}
