ghost use Rattle.std.specs.Prelude.{◌≡◌, ◌-◌, find, length};
ghost use Rattle.std.specs.List.{list_all};
ghost use Rattle.consistency.specs.Tables.{stays, stays_all, is_lost, missing, step_by, blame_in, leaf_in, leaf_at};

use crate::graph::{Clause, Link};
use crate::rounds::is_in;

/// A step towards the blame or the leaf of a promise: it is found, by its number, or it is that of
/// another promise.
#[derive(Clone, Copy, Debug, PartialEq, Eq)]
pub(crate) enum Step {
    Own(u32),
    Via(u32),
}

fn stays_in(left: &[Option<u32>], given: bool, round: u32, link: Link) -> bool
    ensures { result ≡ stays left.now given round link }
{
    match link {
        Link::Promise(promise) => is_in(left, promise, round),
        Link::Word(_) => given,
    }
}

/// Whether all links of an alternative survive a round.
pub(crate) fn all_stay(left: &[Option<u32>], given: bool, round: u32, links: &[Link]) -> bool
    ensures { result ≡ stays_all left.now given round links.now }
{
    links.iter().all(|link| stays_in(left, given, round, *link))
}

/// Whether no alternative of a finding survives a round.
pub(crate) fn is_lost_in(left: &[Option<u32>], given: bool, round: u32, clause: &Clause) -> bool
    ensures { result ≡ is_lost left.now given round clause.now }
{
    for links in &clause.alternatives {
        if all_stay(left, given, round, links) {
            return false;
        }
    }
    true
}

fn missing_link(left: &[Option<u32>], given: bool, round: u32, links: &[Link]) -> Option<Link>
    ensures { result ≡ missing left.now given round links.now }
{
    links
        .iter()
        .copied()
        .find(|link| !stays_in(left, given, round, *link))
}

fn step_to(link: Option<Link>) -> Option<Step>
    ensures { result ≡ step_by link }
{
    match link {
        None => None,
        Some(Link::Promise(promise)) => Some(Step::Via(promise)),
        Some(Link::Word(word)) => Some(Step::Own(word)),
    }
}

/// The step from a promise that left after a round by its first lost finding: the finding itself
/// where it has no alternative.
pub(crate) fn blame_step(
    left: &[Option<u32>],
    finding: u32,
    round: u32,
    clause: &Clause,
) -> Option<Step>
    ensures { result ≡ blame_in left.now finding round clause.now.alternatives.items }
{
    match clause.alternatives.first() {
        None => Some(Step::Own(finding)),
        Some(links) => step_to(missing_link(left, true, round, links)),
    }
}

/// The step from a promise that left after a round where words don't count, by its first lost
/// finding: into the first alternative that is consistent where they do.
pub(crate) fn leaf_step(
    con: &[Option<u32>],
    firm: &[Option<u32>],
    rounds: u32,
    round: u32,
    clause: &Clause,
) -> Option<Step>
    requires { rounds ≡ length con.now }
    ensures { result ≡ leaf_at con.now firm.now round (Some clause.now) }
{
    for links in &clause.alternatives {
        if all_stay(con, true, rounds, links) {
            return step_to(missing_link(firm, false, round, links));
        }
    }
    None
}
