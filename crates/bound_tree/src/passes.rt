ghost use Rattle.std.specs.Prelude.{◌≡◌, ◌||◌, ◌+◌, ◌≤◌, min};
ghost use Rattle.bound_tree.specs.Flows.{End};
ghost use Rattle.bound_tree.specs.Live as spec;
ghost use Rattle.bound_tree.specs.Live.{spends_in};
ghost use Rattle.bound_tree.specs.Ways.{whole, way_of};

use crate::claim::is_marked;
use crate::way::Way;

fn either(one: bool, other: bool) -> bool
    ensures { result ≡ (one || other) }
{
    one || other
}

/// Whether the local can be named in the way, or behind it, before it is set.
#[cycle(live)]
#[tactic(auto, using(crate::proofs::Passing::ways))]
fn live_way(way: &Way, local: u32, after: bool) -> bool
    ensures { result ≡ spec.live local (way_of way.now End) after }
{
    match way {
        Way::Names(named, _) => { if local == *named { true } else { after } }
        Way::Sets(set) => { if local == *set { false } else { after } }
        Way::Leaves => false,
        Way::Either(one, other) => {
            let first = live(one.as_slice(), local, after);
            let second = live(other.as_slice(), local, after);
            either(first, second)
        }
        Way::Again(turn) => {
            let again = live(turn.as_slice(), local, after);
            either(after, again)
        }
    }
}

/// Whether the local can be named in the flow before it is set, whatever the conditions say; `after`
/// says whether it is named behind the flow.
#[cycle(live)]
#[tactic(auto, using(crate::proofs::Passing::live_more))]
pub fn live(flow: &[Way], local: u32, after: bool) -> bool
    ensures { result ≡ spec.live local (whole flow.now) after }
{
    let mut can = after;
    for way in flow {
        can = live_way(way, local, can);
    }
    can
}

/// Whether the local is named in the way at the token, and can be named later.
#[cycle(later)]
#[tactic(auto, using(crate::proofs::Passing::ways))]
fn later_way(way: &Way, local: u32, at: u32, after: bool) -> bool
    ensures { result ≡ spec.named_later local at (way_of way.now End) after }
{
    match way {
        Way::Names(named, token) => local == *named && at == *token && after,
        Way::Sets(_) | Way::Leaves => false,
        Way::Either(one, other) => {
            let first = named_later(one.as_slice(), local, at, after);
            let second = named_later(other.as_slice(), local, at, after);
            either(first, second)
        }
        Way::Again(turn) => {
            let next = live(turn.as_slice(), local, after);
            named_later(turn.as_slice(), local, at, either(after, next))
        }
    }
}

/// Whether the local is named in the flow at the token, and can be named behind it before it is set;
/// `after` says whether it is named behind the flow.
#[cycle(later)]
#[tactic(auto, using(crate::proofs::Passing::live_more, crate::proofs::Passing::later_more))]
pub fn named_later(flow: &[Way], local: u32, at: u32, after: bool) -> bool
    ensures { result ≡ spec.named_later local at (whole flow.now) after }
{
    let mut can = after;
    let mut later = false;
    for way in flow {
        let here = later_way(way, local, at, can);
        later = either(here, later);
        can = live_way(way, local, can);
    }
    later
}

/// Whether the local can be spent behind the way, and not set since.
#[cycle(spent)]
#[tactic(auto, using(crate::proofs::Passing::ways))]
fn spent_way(way: &Way, spends: &[bool], local: u32, before: bool) -> bool
    ensures { result ≡ spec.spent local (spends_in spends.now) (way_of way.now End) before }
{
    match way {
        Way::Names(named, token) => {
            if local == *named {
                let now = is_marked(spends, *token);
                either(now, before)
            } else {
                before
            }
        }
        Way::Sets(set) => { if local == *set { false } else { before } }
        Way::Leaves => false,
        Way::Either(one, other) => {
            let first = spent(one.as_slice(), spends, local, before);
            let second = spent(other.as_slice(), spends, local, before);
            either(first, second)
        }
        Way::Again(turn) => {
            let again = spent(turn.as_slice(), spends, local, before);
            either(before, again)
        }
    }
}

/// Whether the local can be spent behind the flow, and not set since. `spends` says of each token
/// whether a naming at it spends; `before` whether the local was spent before the flow.
#[cycle(spent)]
#[tactic(auto, using(crate::proofs::Passing::spent_less))]
pub fn spent(flow: &[Way], spends: &[bool], local: u32, before: bool) -> bool
    ensures { result ≡ spec.spent local (spends_in spends.now) (whole flow.now) before }
{
    let mut gone = before;
    let mut at = flow.len();
    while at > 0 {
        at -= 1;
        gone = spent_way(&flow[at], spends, local, gone);
    }
    gone
}

/// Whether the local is named in the way at the token, and can be spent by then.
#[cycle(before)]
#[tactic(auto, using(crate::proofs::Passing::ways))]
fn before_way(way: &Way, spends: &[bool], local: u32, at: u32, before: bool) -> bool
    ensures { result ≡ spec.spent_before local (spends_in spends.now) at (way_of way.now End) before }
{
    match way {
        Way::Names(named, token) => local == *named && at == *token && before,
        Way::Sets(_) | Way::Leaves => false,
        Way::Either(one, other) => {
            let first = spent_before(one.as_slice(), spends, local, at, before);
            let second = spent_before(other.as_slice(), spends, local, at, before);
            either(first, second)
        }
        Way::Again(turn) => {
            let last = spent(turn.as_slice(), spends, local, before);
            spent_before(turn.as_slice(), spends, local, at, either(before, last))
        }
    }
}

/// Whether the local is named in the flow at the token, and can be spent by then. `spends` says of
/// each token whether a naming at it spends; `before` whether the local was spent before the flow.
#[cycle(before)]
#[tactic(auto, using(crate::proofs::Passing::spent_less, crate::proofs::Passing::before_less))]
pub fn spent_before(flow: &[Way], spends: &[bool], local: u32, at: u32, before: bool) -> bool
    ensures { result ≡ spec.spent_before local (spends_in spends.now) at (whole flow.now) before }
{
    let mut gone = before;
    let mut found = false;
    let mut number = flow.len();
    while number > 0 {
        number -= 1;
        let here = before_way(&flow[number], spends, local, at, gone);
        found = either(found, here);
        gone = spent_way(&flow[number], spends, local, gone);
    }
    found
}
