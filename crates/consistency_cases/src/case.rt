ghost use Rattle.std.specs.Prelude.{◌≡◌, ◌<◌, ◌++◌, All, Contains, IfOk, IsTrue, codes, decimal, length};
ghost use Rattle.consistency.specs.Among.{FindingAmong, FindingsAmong, LinkAmong, WayAmong};
ghost use Rattle.consistency.specs.Blame.{IsWord};
ghost use Rattle.consistency.specs.Keys.{Distinct};
ghost use Rattle.consistency_cases.specs.Cases.{case_in, cases_in, link_in, way_in, ways_in};

use desk_base::{Items, Name, OutOfMemory, PromiseKey, PromiseName, Text};
use result_records::{Alternative, Finding, FindingCode, FindingKey, FindingLink, Put, VouchKey};
use std::alloc::Global;

/// A link by number: to a promise, or to a word (even: a vouch, odd: an assumption).
#[derive(Clone, Copy, Debug, PartialEq, Eq)]
pub enum Link {
    Promise(usize),
    Word(usize),
}

/// A finding on a promise, by number.
#[derive(Drop)]
pub struct Case {
    pub on: usize,
    pub ways: Vec<Vec<Link>>,
}

fn text_of(alloc: Global, letter: &str, number: usize) -> Result<Text, OutOfMemory>
    ensures { IfOk result (λ text. text ≡ letter.now ++ decimal number) }
{
    let mut text = Text::new(alloc);
    text.put(letter)?;
    text.put_number(number as u64)?;
    Ok(text)
}

fn key_of(alloc: Global, promise: usize) -> Result<PromiseKey, OutOfMemory>
    ensures { IfOk result (λ key. key.target ≡ codes "P" ++ decimal promise) }
{
    let target = text_of(alloc, "P", promise)?;
    Ok(PromiseKey {
        target,
        name: PromiseName::RegionLock,
        detail: Text::new(alloc),
    })
}

fn word_of(alloc: Global, word: usize) -> Result<FindingLink, OutOfMemory>
    ensures { IfOk result (λ l. IsWord l) }
{
    let text = text_of(alloc, "w", word)?;
    if word % 2 == 0 {
        return Ok(FindingLink::Vouched(VouchKey::Source { unit: text }));
    }
    let class = Name::from_slice(alloc, text.as_slice())?;
    Ok(FindingLink::Assumed {
        class,
        promise: key_of(alloc, 0)?,
    })
}

fn is_link_in(promises: usize, link: Link) -> bool
    ensures { result ≡ link_in promises link }
{
    match link {
        Link::Promise(promise) => promise < promises,
        Link::Word(_) => true,
    }
}

fn is_way_in(promises: usize, links: &[Link]) -> bool
    ensures { result ≡ way_in promises links.now }
{
    links.iter().all(|link| is_link_in(promises, *link))
}

fn are_ways_in(promises: usize, ways: &[Vec<Link>]) -> bool
    ensures { result ≡ ways_in promises ways.now }
{
    ways.iter().all(|links| is_way_in(promises, links))
}

fn is_case_in(promises: usize, case: &Case) -> bool
    ensures { result ≡ case_in promises case.now }
{
    case.on < promises && are_ways_in(promises, &case.ways)
}

/// Whether the findings are on promises that there are, and link to those alone.
pub fn are_cases_in(promises: usize, cases: &[Case]) -> bool
    ensures { result ≡ cases_in promises cases.now }
{
    cases.iter().all(|case| is_case_in(promises, case))
}

fn copy_of(key: &PromiseKey) -> Result<PromiseKey, OutOfMemory>
    ensures { IfOk result (λ copy. copy ≡ key.now) }
{
    Ok(key.clone()?)
}

fn key_at(keys: &[PromiseKey], promise: usize) -> Result<PromiseKey, OutOfMemory>
    requires { promise < length keys.now }
    ensures { IfOk result (λ key. Contains keys.now key) }
{
    Ok(copy_of(&keys[promise])?)
}

fn link_of(alloc: Global, keys: &[PromiseKey], link: Link) -> Result<FindingLink, OutOfMemory>
    requires { IsTrue (link_in (length keys.now) link) }
    ensures { IfOk result (λ l. LinkAmong keys.now l) }
{
    match link {
        Link::Promise(promise) => Ok(FindingLink::Promise(key_at(keys, promise)?)),
        Link::Word(word) => word_of(alloc, word),
    }
}

fn way_of(alloc: Global, keys: &[PromiseKey], links: &[Link]) -> Result<Alternative, OutOfMemory>
    requires { IsTrue (way_in (length keys.now) links.now) }
    ensures { IfOk result (λ way. WayAmong keys.now way) }
{
    let mut way = Vec::new(alloc);
    for link in links {
        way.push(link_of(alloc, keys, *link)?)?;
    }
    Ok(Items::from_vec(way))
}

fn ways_of(
    alloc: Global,
    keys: &[PromiseKey],
    ways: &[Vec<Link>],
) -> Result<Items<Alternative>, OutOfMemory>
    requires { IsTrue (ways_in (length keys.now) ways.now) }
    ensures { IfOk result (λ ways. All (WayAmong keys.now) ways) }
{
    let mut made = Vec::new(alloc);
    for links in ways {
        made.push(way_of(alloc, keys, links)?)?;
    }
    Ok(Items::from_vec(made))
}

fn finding_of(
    alloc: Global,
    keys: &[PromiseKey],
    number: u32,
    case: &Case,
) -> Result<Finding, OutOfMemory>
    requires { IsTrue (case_in (length keys.now) case.now) }
    ensures { IfOk result (λ finding. FindingAmong keys.now finding) }
{
    let alternatives = ways_of(alloc, keys, &case.ways)?;
    let on = key_at(keys, case.on)?;
    Ok(Finding {
        key: FindingKey {
            code: FindingCode::UnguardedRead,
            number,
            unit: Text::new(alloc),
            on,
        },
        place: 1,
        subject: Text::new(alloc),
        alternatives,
    })
}

/// The keys of so many promises, no two of them one.
pub fn keys_of(alloc: Global, promises: usize) -> Result<Vec<PromiseKey>, OutOfMemory>
    ensures { IfOk result (λ keys. Distinct keys.items) }
{
    let mut keys = Vec::new(alloc);
    for promise in 0..promises {
        keys.push(key_of(alloc, promise)?)?;
    }
    Ok(keys)
}

/// The findings, numbered from 0.
pub fn findings_of(
    alloc: Global,
    keys: &[PromiseKey],
    cases: &[Case],
) -> Result<Vec<Finding>, OutOfMemory>
    requires { IsTrue (cases_in (length keys.now) cases.now) }
    ensures { IfOk result (λ findings. FindingsAmong keys.now findings.items) }
{
    let mut findings = Vec::new(alloc);
    let mut number = 0u32;
    for case in cases {
        findings.push(finding_of(alloc, keys, number, case)?)?;
        number = number.saturating_add(1);
    }
    Ok(findings)
}
