ghost use Rattle.std.specs.Prelude.{◌≡◌, All, Contains, IfOk, OnOk};
ghost use Rattle.std.specs.List.{AllZip, slice_get};
ghost use Rattle.consistency.specs.Among.{FindingAmong, FindingsAmong, LinkAmong, WayAmong};
ghost use Rattle.consistency.specs.Keys.{Distinct};
ghost use Rattle.consistency.specs.Numbering.{IsNumbering};
ghost use Rattle.consistency.specs.Graph.{ClauseOf, Extends, GraphOf, LinkOf, WayOf};

use crate::graph::{Clause, Graph, Link};
use crate::numbers::{Numbers, number_of, numbers_of, short};
use desk_base::{OutOfMemory, PromiseKey};
use result_records::{Alternative, Finding, FindingLink};
use std::alloc::Global;

/// The number of one of the promises.
fn known_number(keys: &[PromiseKey], numbers: &Numbers, key: &PromiseKey) -> u32
    requires numbers { IsNumbering keys.now numbers.now }
    requires among { Contains keys.now key.now }
    ensures { slice_get keys.now result ≡ Some key.now }
{
    match number_of(numbers, key) {
        Some(number) => number,
        None => unreachable!(),
    }
}

fn link_of(
    keys: &[PromiseKey],
    numbers: &Numbers,
    words: &mut Vec<FindingLink>,
    link: &FindingLink,
) -> Result<Link, OutOfMemory>
    requires numbers { IsNumbering keys.now numbers.now }
    requires among { LinkAmong keys.now link.now }
    ensures link { IfOk result (λ l. LinkOf keys.now words.new.items l link.now) }
    ensures words { OnOk result (Extends words.old.items words.new.items) }
{
    if let FindingLink::Promise(key) = link {
        return Ok(Link::Promise(known_number(keys, numbers, key)));
    }
    let number = short(words.len())?;
    words.push(link.clone()?)?;
    Ok(Link::Word(number))
}

fn links_of(
    alloc: Global,
    keys: &[PromiseKey],
    numbers: &Numbers,
    words: &mut Vec<FindingLink>,
    links: &[FindingLink],
) -> Result<Vec<Link>, OutOfMemory>
    requires numbers { IsNumbering keys.now numbers.now }
    requires among { WayAmong keys.now links.now }
    ensures links { IfOk result (λ v. WayOf keys.now words.new.items v links.now) }
    ensures words { OnOk result (Extends words.old.items words.new.items) }
{
    let mut made = Vec::new(alloc);
    for link in links {
        made.push(link_of(keys, numbers, words, link)?)?;
    }
    Ok(made)
}

fn ways_of(
    alloc: Global,
    keys: &[PromiseKey],
    numbers: &Numbers,
    words: &mut Vec<FindingLink>,
    ways: &[Alternative],
) -> Result<Vec<Vec<Link>>, OutOfMemory>
    requires numbers { IsNumbering keys.now numbers.now }
    requires among { All (WayAmong keys.now) ways.now }
    ensures ways { IfOk result (λ v. AllZip (WayOf keys.now words.new.items) v.items ways.now) }
    ensures words { OnOk result (Extends words.old.items words.new.items) }
{
    let mut made = Vec::new(alloc);
    for way in ways {
        made.push(links_of(alloc, keys, numbers, words, way.as_slice())?)?;
    }
    Ok(made)
}

fn clause_of(
    alloc: Global,
    keys: &[PromiseKey],
    numbers: &Numbers,
    words: &mut Vec<FindingLink>,
    finding: &Finding,
) -> Result<Clause, OutOfMemory>
    requires numbers { IsNumbering keys.now numbers.now }
    requires among { FindingAmong keys.now finding.now }
    ensures clause { IfOk result (λ c. ClauseOf keys.now words.new.items c finding.now) }
    ensures words { OnOk result (Extends words.old.items words.new.items) }
{
    let on = known_number(keys, numbers, &finding.key.on);
    let alternatives = ways_of(alloc, keys, numbers, words, finding.alternatives.as_slice())?;
    Ok(Clause {
        key: finding.key.clone()?,
        on,
        alternatives,
    })
}

fn clauses_of(
    alloc: Global,
    keys: &[PromiseKey],
    numbers: &Numbers,
    words: &mut Vec<FindingLink>,
    findings: &[Finding],
) -> Result<Vec<Clause>, OutOfMemory>
    requires numbers { IsNumbering keys.now numbers.now }
    requires among { FindingsAmong keys.now findings.now }
    ensures { IfOk result (λ v. AllZip (ClauseOf keys.now words.new.items) v.items findings.now) }
{
    let mut made = Vec::new(alloc);
    for finding in findings {
        made.push(clause_of(alloc, keys, numbers, words, finding)?)?;
    }
    Ok(made)
}

fn copies(alloc: Global, keys: &[PromiseKey]) -> Result<Vec<PromiseKey>, OutOfMemory>
    ensures { IfOk result (λ v. v.items ≡ keys.now) }
{
    let mut copies = Vec::new(alloc);
    for key in keys {
        copies.push(key.clone()?)?;
    }
    Ok(copies)
}

/// The graph of a project: its promises, each once, and its findings in the order in which they are
/// to be taken. The promise of each finding, and the promises that it links to, are among them.
pub fn graph_of(
    alloc: Global,
    promises: &[PromiseKey],
    findings: &[Finding],
) -> Result<Graph, OutOfMemory>
    requires distinct { Distinct promises.now }
    requires among { FindingsAmong promises.now findings.now }
    ensures { IfOk result (λ graph. GraphOf promises.now findings.now graph) }
{
    let numbers = numbers_of(alloc, promises)?;
    let mut words = Vec::new(alloc);
    let clauses = clauses_of(alloc, promises, &numbers, &mut words, findings)?;
    Ok(Graph {
        keys: copies(alloc, promises)?,
        words,
        clauses,
    })
}
