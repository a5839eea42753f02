ghost use Rattle.std.specs.Prelude.{◌≡◌, ◌+◌, ◌≤◌, min};
ghost use Rattle.bound_tree.specs.Live as spec;
ghost use Rattle.bound_tree.specs.Live.{spends_in};
ghost use Rattle.bound_tree.specs.Reading.{term_of, terms_of};
ghost use Rattle.bound_tree.specs.Runs.{namings, namings_in, one_if};
ghost use Rattle.bound_tree.specs.Shown.{phrase_as};
ghost use Rattle.bound_tree.specs.Ways.{whole};

use crate::passes::{named_later, spent_before};
use crate::place::Phrase;
use crate::tree::Expr;
use crate::way::Way;

/// One where the test holds.
fn once_if(is: bool) -> u8
    ensures { result ≡ min (one_if is) 2 }
{
    if is { 1 } else { 0 }
}

/// The sum, two at most.
fn at_most_two(one: u8, other: u8) -> u8
    requires one { one ≤ 2 }
    requires other { other ≤ 2 }
    ensures { result ≡ min (one + other) 2 }
{
    if one + other < 2 { one + other } else { 2 }
}

/// How often the expression names the local, two at most.
#[cycle(namings)]
#[tactic(auto, using(crate::proofs::Readings::readings, crate::proofs::Counting::min_both))]
fn namings(expr: &Expr, local: u32) -> u8
    ensures { result ≡ min (namings local (term_of expr.now)) 2 }
{
    match expr {
        Expr::Const(_, _) | Expr::Static(_, _) => 0,
        Expr::This(_) => once_if(local == 0),
        Expr::Local(_, named) => once_if(local == *named),
        Expr::Field(_, base, _) => namings(base.get(), local),
        Expr::UnknownField(_, base, _) => namings(base.get(), local),
        Expr::New(_, _, args) => all_namings(args.as_slice(), local),
        Expr::CallStatic(_, _, args) => all_namings(args.as_slice(), local),
        Expr::Unknown(_, _, args) => all_namings(args.as_slice(), local),
        Expr::Call(_, receiver, _, args) => {
            let first = namings(receiver.get(), local);
            let second = all_namings(args.as_slice(), local);
            at_most_two(first, second)
        }
        Expr::UnknownCall(_, receiver, _, args) => {
            let first = namings(receiver.get(), local);
            let second = all_namings(args.as_slice(), local);
            at_most_two(first, second)
        }
        Expr::Unary(_, _, operand) => namings(operand.get(), local),
        Expr::And(_, left, right) | Expr::Or(_, left, right) | Expr::Binary(_, _, left, right) => {
            let first = namings(left.get(), local);
            let second = namings(right.get(), local);
            at_most_two(first, second)
        }
    }
}

#[cycle(namings)]
#[tactic(auto, using(crate::proofs::Counting::min_both))]
fn all_namings(list: &[Expr], local: u32) -> u8
    ensures { result ≡ min (namings_in local (terms_of list.now)) 2 }
{
    let mut count = 0;
    let mut at = list.len();
    while at > 0 {
        at -= 1;
        count = at_most_two(namings(&list[at], local), count);
    }
    count
}

/// How often the phrase names the local, two at most.
#[tactic(auto, using(crate::proofs::Counting::min_both))]
fn phrase_namings(phrase: Phrase<'_>, local: u32) -> u8
    ensures { result ≡ min (namings_in local (phrase_as phrase.entry)) 2 }
{
    match phrase {
        Phrase::One(expr) => namings(expr, local),
        Phrase::Two(target, value) => {
            let first = namings(target, local);
            let second = namings(value, local);
            at_most_two(first, second)
        }
    }
}

/// Whether the flow of the local at the token is clean: the phrase around it names it once, nothing
/// that names it can come later, itself included, before it is set anew, and no naming that spends it
/// can have come before. `spends` says of each token whether a naming at it spends. It takes time in
/// the length of the flow.
#[tactic(auto, using(crate::proofs::Counting::once))]
pub fn is_clean(flow: &[Way], spends: &[bool], phrase: Phrase<'_>, local: u32, at: u32) -> bool
    ensures { result ≡ spec.is_clean (whole flow.now) (spends_in spends.now) (phrase_as phrase.entry) local at }
{
    if phrase_namings(phrase, local) != 1 {
        return false;
    }
    if named_later(flow, local, at, false) {
        return false;
    }
    !spent_before(flow, spends, local, at, false)
}
