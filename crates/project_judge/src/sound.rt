//! What makes a graph of promises and findings: no promise is there twice, and findings and their links
//! speak of the promises alone.

ghost use Rattle.std.specs.Prelude.{◌≡◌, All, Contains, IsTrue, map};
ghost use Rattle.consistency.specs.Among.{FindingAmong, FindingsAmong, LinkAmong, WayAmong};
ghost use Rattle.consistency.specs.Keys.{Distinct, key_cmp};
ghost use Rattle.std.specs.Ordering.{is_lt};
ghost use Rattle.project_answers.specs.Gathered.{finding_of};
ghost use Rattle.project_answers.specs.Laws.{HasWay};

use desk_base::PromiseKey;
use project_answers::Sited;
use result_records::{Alternative, Finding, FindingCode, FindingLink};

fn is_before(a: &PromiseKey, b: &PromiseKey) -> bool
    ensures { result ≡ is_lt (key_cmp a.now b.now) }
{
    a.cmp(b).is_lt()
}

/// Whether no promise of a list that is in order is there twice.
pub(crate) fn are_apart(promises: &[PromiseKey]) -> bool
    ensures { IsTrue result → Distinct promises.now }
{
    for i in 1..promises.len() {
        if !is_before(&promises[i - 1], &promises[i]) {
            return false;
        }
    }
    true
}

fn is_among(promises: &[PromiseKey], key: &PromiseKey) -> bool
    ensures { IsTrue result → Contains promises.now key.now }
{
    promises.binary_search(key).is_ok()
}

fn link_is_among(promises: &[PromiseKey], link: &FindingLink) -> bool
    ensures { IsTrue result → LinkAmong promises.now link.now }
{
    match link {
        FindingLink::Promise(key) => is_among(promises, key),
        FindingLink::Vouched(_) => true,
        FindingLink::Assumed { .. } => true,
    }
}

fn way_is_among(promises: &[PromiseKey], way: &Alternative) -> bool
    ensures { IsTrue result → WayAmong promises.now way.now }
{
    for link in way.as_slice() {
        if !link_is_among(promises, link) {
            return false;
        }
    }
    true
}

fn ways_are_among(promises: &[PromiseKey], ways: &[Alternative]) -> bool
    ensures { IsTrue result → All (WayAmong promises.now) ways.now }
{
    for way in ways {
        if !way_is_among(promises, way) {
            return false;
        }
    }
    true
}

fn is_among_whole(promises: &[PromiseKey], finding: &Finding) -> bool
    ensures { IsTrue result → FindingAmong promises.now finding.now }
{
    is_among(promises, &finding.key.on) && ways_are_among(promises, finding.alternatives.as_slice())
}

/// Whether findings and their links speak of the promises alone, which are in order.
pub(crate) fn are_among(promises: &[PromiseKey], found: &[Sited]) -> bool
    ensures { IsTrue result → FindingsAmong promises.now (map finding_of found.now) }
{
    for sited in found {
        if !is_among_whole(promises, &sited.finding) {
            return false;
        }
    }
    true
}

fn has_way(sited: &Sited) -> bool
    ensures { IsTrue result → HasWay sited.now }
{
    sited.finding.key.code != FindingCode::Standing || !sited.finding.fails()
}

/// Whether that a promise is one of the project is no failure by itself.
pub(crate) fn have_ways(found: &[Sited]) -> bool
    ensures { IsTrue result → All HasWay found.now }
{
    for sited in found {
        if !has_way(sited) {
            return false;
        }
    }
    true
}
