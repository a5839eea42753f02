ghost use Rattle.std.specs.Prelude.{IsTrue, length};
ghost use Rattle.consistency.specs.Keys.{Distinct};
ghost use Rattle.consistency_cases.specs.Cases.{cases_in};

use crate::case::{Case, are_cases_in, findings_of, keys_of};
use crate::random::Random;
use crate::slow::{blame_of, is_left, leaf_of, rounds_of};
use anyhow::Error;
use consistency::{Verdict, Verdicts, graph_of, solve};
use desk_base::{OutOfMemory, PromiseKey};
use result_records::{FindingKey, FindingLink, VouchKey};
use std::alloc::Global;

fn solved(alloc: Global, keys: &[PromiseKey], cases: &[Case]) -> Result<Verdicts, OutOfMemory>
    requires distinct { Distinct keys.now }
    requires among { IsTrue (cases_in (length keys.now) cases.now) }
{
    let findings = findings_of(alloc, keys, cases)?;
    let graph = graph_of(alloc, keys, &findings)?;
    let verdicts = solve(alloc, &graph)?;
    Ok(verdicts)
}

/// The keys of so many promises and the verdicts on them; None where a finding is on a promise that
/// isn't there, or links to one.
fn verdicts_of(
    alloc: Global,
    promises: usize,
    cases: &[Case],
) -> Result<Option<(Vec<PromiseKey>, Verdicts)>, OutOfMemory> {
    let keys = keys_of(alloc, promises)?;
    if !are_cases_in(keys.len(), cases) {
        return Ok(None);
    }
    let verdicts = solved(alloc, &keys, cases)?;
    Ok(Some((keys, verdicts)))
}

fn blame_text(blame: Option<&FindingKey>) -> u32 {
    match blame {
        None => 0,
        Some(key) => key.number.saturating_add(1),
    }
}

fn word_text<'a>(leaf: Option<&'a FindingLink>) -> &'a [u8] {
    match leaf {
        None => b"",
        Some(FindingLink::Promise(_)) => b"promise",
        Some(FindingLink::Vouched(VouchKey::Source { unit })) => unit.as_slice(),
        Some(FindingLink::Vouched(VouchKey::Desk { finding })) => finding.as_slice(),
        Some(FindingLink::Assumed { class, .. }) => class.as_slice(),
    }
}

fn print_one(
    rt: &impl Print,
    verdicts: &Verdicts,
    promise: usize,
    key: &PromiseKey,
) -> Result<(), Error> {
    let blame = blame_text(verdicts.blame(key));
    let leaf = std::str::from_utf8(word_text(verdicts.leaf(key))).unwrap_or("");
    match verdicts.verdict(key) {
        None => println!(rt; "{promise} none")?,
        Some(Verdict::Firm) => println!(rt; "{promise} firm")?,
        Some(Verdict::Contingent) => println!(rt; "{promise} contingent rests {leaf}")?,
        Some(Verdict::Inconsistent) => println!(rt; "{promise} inconsistent blame {blame}")?,
    }
    Ok(())
}

/// Prints the verdict on each promise, with the number from 1 of the finding that it is blamed on,
/// or the word that it rests on.
pub fn print_verdicts(
    rt: &impl Print,
    alloc: Global,
    promises: usize,
    cases: &[Case],
) -> Result<(), Error> {
    let Some((keys, verdicts)) = verdicts_of(alloc, promises, cases)? else {
        println!(rt; "no such promise")?;
        return Ok(());
    };
    let mut promise = 0usize;
    for key in &keys {
        print_one(rt, &verdicts, promise, key)?;
        promise = promise.saturating_add(1);
    }
    Ok(())
}

fn word_number(leaf: Option<&FindingLink>) -> Option<usize> {
    let text = std::str::from_utf8(word_text(leaf)).ok()?;
    text.strip_prefix("w")?.parse::<usize>().ok()
}

/// Whether the verdict, the blame and the leaf of a promise are those by the rounds as defined.
fn agrees(
    verdicts: &Verdicts,
    key: &PromiseKey,
    promise: usize,
    cases: &[Case],
    con: &[Vec<bool>],
    firm: &[Vec<bool>],
) -> bool {
    let blame = verdicts.blame(key).map(|key| key.number as usize);
    let leaf = word_number(verdicts.leaf(key));
    let left = match con.last() {
        None => return false,
        Some(left) => left,
    };
    match verdicts.verdict(key) {
        None => false,
        Some(Verdict::Firm) => is_left(firm, promise) && blame.is_none() && leaf.is_none(),
        Some(Verdict::Contingent) => {
            is_left(con, promise)
                && !is_left(firm, promise)
                && blame.is_none()
                && leaf == leaf_of(left, firm, cases, promise)
        }
        Some(Verdict::Inconsistent) => {
            !is_left(con, promise) && leaf.is_none() && blame == blame_of(con, cases, promise)
        }
    }
}

fn compare_one(alloc: Global, random: &mut Random) -> Result<bool, OutOfMemory> {
    let promises = random.below(12).saturating_add(1);
    let cases = random.cases(alloc, promises)?;
    let Some((keys, verdicts)) = verdicts_of(alloc, promises, &cases)? else {
        return Ok(false);
    };
    let con = rounds_of(alloc, promises, &cases, true)?;
    let firm = rounds_of(alloc, promises, &cases, false)?;
    let mut promise = 0usize;
    for key in &keys {
        if !agrees(&verdicts, key, promise, &cases, &con, &firm) {
            return Ok(false);
        }
        promise = promise.saturating_add(1);
    }
    Ok(true)
}

/// Compares random graphs with the rounds as defined, and prints how many agree.
pub fn compare(rt: &impl Print, alloc: Global, seed: usize, graphs: usize) -> Result<(), Error> {
    let mut random = Random {
        state: (seed % 65_536) as u32,
    };
    let mut agree = 0usize;
    for _ in 0..graphs {
        if compare_one(alloc, &mut random)? {
            agree = agree.saturating_add(1);
        }
    }
    println!(rt; "{agree} of {graphs} agree")?;
    Ok(())
}

/// Prints how many promises are inconsistent.
pub fn count(rt: &impl Print, alloc: Global, promises: usize, cases: &[Case]) -> Result<(), Error> {
    let Some((keys, verdicts)) = verdicts_of(alloc, promises, cases)? else {
        println!(rt; "no such promise")?;
        return Ok(());
    };
    let out = keys
        .iter()
        .filter(|key| verdicts.verdict(key) == Some(Verdict::Inconsistent))
        .count();
    println!(rt; "{out} of {promises} inconsistent")?;
    Ok(())
}
