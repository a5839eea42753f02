ghost use Rattle.std.specs.Prelude.{◌≡◌, ◌++◌, ◌∷◌, [], IfOk, OnOk};
ghost use Rattle.bound_tree.specs.Claim as claim;
ghost use Rattle.bound_tree.specs.Claims.{varies_in, listed, claim_of, all_seen};
ghost use Rattle.bound_tree.specs.Places as place;
ghost use Rattle.bound_tree.specs.Places.{access_of, target_goal, places_of};
ghost use Rattle.bound_tree.specs.Reading.{term_of, terms_of, statement_of, statements_of};
ghost use Rattle.bound_tree.specs.Shown.{access_if_any, argument_goal, claim_as, claims_as, claim_if_any, goal_as, what_as, phrase_as, shown_back, all_shown};
ghost use Rattle.bound_tree.specs.Tree.{base_of, stamp_of};
ghost use Rattle.bound_tree.specs.Walked as spec;
ghost use Rattle.bound_tree.specs.Walked.{member_claims};

use crate::claim::{Claim, claim_of};
use crate::parts::{base_of, is_bad, stamp_of};
use crate::place::{Access, Callee, Goal, Owner, Phrase, Seen, What};
use crate::tree::{Expr, Stmt};
use crate::unit::{Body, BoundTree, Part};
use bumpalo::Bump;
use bumpalo::collections::into_bump_slice;
use desk_base::{Items, Name, OutOfMemory};
use std::alloc::Global;

/// Puts a place before the others.
fn put<'a>(
    places: &mut Items<Seen<'a>>,
    held: &'a [Claim<'a>],
    phrase: Phrase<'a>,
    is_faulty: bool,
    at: u32,
    what: What<'a>,
) -> Result<(), OutOfMemory>
    ensures { OnOk result (shown_back places.new ≡ spec.spot (claims_as held.now) (phrase_as phrase.entry) is_faulty at (what_as what.entry) (shown_back places.old)) }
{
    places.push(Seen {
        claims: held,
        phrase,
        is_faulty,
        at,
        what,
    })?;
    Ok(())
}

/// Puts a value that goes somewhere before the other places.
fn put_flow<'a>(
    places: &mut Items<Seen<'a>>,
    held: &'a [Claim<'a>],
    phrase: Phrase<'a>,
    value: &'a Expr,
    goal: Goal<'a>,
) -> Result<(), OutOfMemory>
    ensures { OnOk result (shown_back places.new ≡ spec.going (claims_as held.now) (phrase_as phrase.entry) (term_of value.now) (goal_as goal.entry) (shown_back places.old)) }
{
    let stamp = stamp_of(value);
    put(
        places,
        held,
        phrase,
        is_bad(value),
        stamp.first,
        What::Flows(value, goal),
    )
}

fn argument_goal<'a>(callee: Callee<'a>, number: usize) -> Goal<'a>
    ensures { goal_as result ≡ argument_goal callee.entry number }
{
    match callee {
        Callee::Method(member) => Goal::ToArgument(member, number),
        Callee::Constructor(class) => Goal::ToConstructor(class, number),
        Callee::Nothing(name) => Goal::ToNothing(name),
    }
}

/// Puts the places of an expression before the others.
#[cycle(expr)]
#[tactic(auto, using(crate::proofs::Readings::readings))]
fn put_expr<'a>(
    expr: &'a Expr,
    held: &'a [Claim<'a>],
    phrase: Phrase<'a>,
    places: &mut Items<Seen<'a>>,
) -> Result<(), OutOfMemory>
    ensures { OnOk result (shown_back places.new ≡ spec.term_seen (claims_as held.now) (phrase_as phrase.entry) (term_of expr.now) (shown_back places.old)) }
{
    match expr {
        Expr::Const(_, _) | Expr::This(_) | Expr::Local(_, _) => Ok(()),
        Expr::Field(stamp, base, field) => {
            let owner = Owner::Of(base.get());
            put(
                places,
                held,
                phrase,
                stamp.is_faulty,
                stamp.at,
                What::Reads(field, owner),
            )?;
            put_expr(base.get(), held, phrase, places)?;
            Ok(())
        }
        Expr::Static(stamp, field) => {
            put(
                places,
                held,
                phrase,
                stamp.is_faulty,
                stamp.at,
                What::Reads(field, Owner::OfClass),
            )
        }
        Expr::New(stamp, class, args) => {
            put(
                places,
                held,
                phrase,
                stamp.is_faulty,
                stamp.at,
                What::Makes(class, args.as_slice()),
            )?;
            put_args(
                args.as_slice(),
                held,
                phrase,
                Callee::Constructor(class),
                places,
            )?;
            Ok(())
        }
        Expr::Call(stamp, receiver, member, args) => {
            let what = What::Calls(member, Owner::Of(receiver.get()), args.as_slice());
            put(places, held, phrase, stamp.is_faulty, stamp.at, what)?;
            put_args(
                args.as_slice(),
                held,
                phrase,
                Callee::Method(member),
                places,
            )?;
            put_value(
                receiver.get(),
                Goal::ToReceiver(member),
                held,
                phrase,
                places,
            )?;
            Ok(())
        }
        Expr::CallStatic(stamp, member, args) => {
            let what = What::Calls(member, Owner::OfClass, args.as_slice());
            put(places, held, phrase, stamp.is_faulty, stamp.at, what)?;
            put_args(
                args.as_slice(),
                held,
                phrase,
                Callee::Method(member),
                places,
            )?;
            Ok(())
        }
        Expr::Unknown(_, name, args) => {
            put_args(
                args.as_slice(),
                held,
                phrase,
                Callee::Nothing(name.as_slice()),
                places,
            )
        }
        Expr::UnknownField(_, base, _) => put_expr(base.get(), held, phrase, places),
        Expr::UnknownCall(_, receiver, name, args) => {
            put_args(
                args.as_slice(),
                held,
                phrase,
                Callee::Nothing(name.as_slice()),
                places,
            )?;
            put_value(
                receiver.get(),
                Goal::ToNothing(name.as_slice()),
                held,
                phrase,
                places,
            )?;
            Ok(())
        }
        Expr::Unary(_, _, operand) => put_expr(operand.get(), held, phrase, places),
        Expr::And(_, left, right) | Expr::Or(_, left, right) | Expr::Binary(_, _, left, right) => {
            put_expr(right.get(), held, phrase, places)?;
            put_expr(left.get(), held, phrase, places)?;
            Ok(())
        }
    }
}

/// Puts a value that goes somewhere, and what it does, before the other places.
#[cycle(expr)]
fn put_value<'a>(
    value: &'a Expr,
    goal: Goal<'a>,
    held: &'a [Claim<'a>],
    phrase: Phrase<'a>,
    places: &mut Items<Seen<'a>>,
) -> Result<(), OutOfMemory>
    ensures { OnOk result (shown_back places.new ≡ spec.value_seen (claims_as held.now) (phrase_as phrase.entry) (term_of value.now) (goal_as goal.entry) (shown_back places.old)) }
{
    put_flow(places, held, phrase, value, goal)?;
    put_expr(value, held, phrase, places)?;
    Ok(())
}

#[cycle(expr)]
fn put_args<'a>(
    args: &'a [Expr],
    held: &'a [Claim<'a>],
    phrase: Phrase<'a>,
    callee: Callee<'a>,
    places: &mut Items<Seen<'a>>,
) -> Result<(), OutOfMemory>
    ensures { OnOk result (shown_back places.new ≡ spec.args_seen (claims_as held.now) (phrase_as phrase.entry) (argument_goal callee.entry) 0 (terms_of args.now) (shown_back places.old)) }
{
    let mut at = args.len();
    while at > 0 {
        at -= 1;
        put_value(&args[at], argument_goal(callee, at), held, phrase, places)?;
    }
    Ok(())
}

/// The field that a target is, whose it is, and where.
#[tactic(auto, using(crate::proofs::Readings::readings))]
fn access_of(target: &Expr) -> Option<Access<'_>>
    ensures { access_if_any result ≡ access_of (term_of target.now) }
{
    match target {
        Expr::Field(stamp, base, field) => Some(Access {
            is_faulty: stamp.is_faulty,
            at: stamp.at,
            field,
            owner: Owner::Of(base.get()),
        }),
        Expr::Static(stamp, field) => Some(Access {
            is_faulty: stamp.is_faulty,
            at: stamp.at,
            field,
            owner: Owner::OfClass,
        }),
        Expr::Const(_, _)
        | Expr::This(_)
        | Expr::Local(_, _)
        | Expr::New(_, _, _)
        | Expr::Call(_, _, _, _)
        | Expr::CallStatic(_, _, _)
        | Expr::Unknown(_, _, _)
        | Expr::UnknownField(_, _, _)
        | Expr::UnknownCall(_, _, _, _)
        | Expr::Unary(_, _, _)
        | Expr::And(_, _, _)
        | Expr::Or(_, _, _)
        | Expr::Binary(_, _, _, _) => None,
    }
}

/// Where an assigned value goes.
#[tactic(auto, using(crate::proofs::Readings::readings))]
fn target_goal(target: &Expr) -> Goal<'_>
    ensures { goal_as result ≡ target_goal (term_of target.now) }
{
    match target {
        Expr::Local(_, local) => Goal::ToLocal(*local),
        Expr::Field(_, _, field) | Expr::Static(_, field) => Goal::ToField(field),
        Expr::UnknownField(_, _, name) | Expr::Unknown(_, name, _) => {
            Goal::ToNothing(name.as_slice())
        }
        Expr::Const(_, _)
        | Expr::This(_)
        | Expr::New(_, _, _)
        | Expr::Call(_, _, _, _)
        | Expr::CallStatic(_, _, _)
        | Expr::UnknownCall(_, _, _, _)
        | Expr::Unary(_, _, _)
        | Expr::And(_, _, _)
        | Expr::Or(_, _, _)
        | Expr::Binary(_, _, _, _) => Goal::ToNothing(&[]),
    }
}

fn put_base<'a>(
    target: &'a Expr,
    held: &'a [Claim<'a>],
    phrase: Phrase<'a>,
    places: &mut Items<Seen<'a>>,
) -> Result<(), OutOfMemory>
    ensures { OnOk result (shown_back places.new ≡ spec.base_seen (claims_as held.now) (phrase_as phrase.entry) (base_of (term_of target.now)) (shown_back places.old)) }
{
    match base_of(target) {
        Some(base) => put_expr(base, held, phrase, places),
        None => Ok(()),
    }
}

fn put_read<'a>(
    target: &'a Expr,
    held: &'a [Claim<'a>],
    phrase: Phrase<'a>,
    places: &mut Items<Seen<'a>>,
) -> Result<(), OutOfMemory>
    ensures { OnOk result (shown_back places.new ≡ spec.read_seen (claims_as held.now) (phrase_as phrase.entry) (access_of (term_of target.now)) (shown_back places.old)) }
{
    match access_of(target) {
        Some(read) => put(
            places,
            held,
            phrase,
            read.is_faulty,
            read.at,
            What::Reads(read.field, read.owner),
        ),
        None => Ok(()),
    }
}

fn put_write<'a>(
    target: &'a Expr,
    held: &'a [Claim<'a>],
    phrase: Phrase<'a>,
    places: &mut Items<Seen<'a>>,
) -> Result<(), OutOfMemory>
    ensures { OnOk result (shown_back places.new ≡ spec.written_seen (claims_as held.now) (phrase_as phrase.entry) (access_of (term_of target.now)) (shown_back places.old)) }
{
    match access_of(target) {
        Some(write) => put(
            places,
            held,
            phrase,
            write.is_faulty,
            write.at,
            What::Writes(write.field, write.owner),
        ),
        None => Ok(()),
    }
}

/// The claims with one more behind them.
fn with_claim<'a>(
    arena: &'a Bump,
    held: &'a [Claim<'a>],
    claim: Claim<'a>,
) -> Result<&'a [Claim<'a>], OutOfMemory>
    ensures { IfOk result (λ inner. claims_as inner.now ≡ claims_as held.now ++ claim_as claim.entry ∷ []) }
{
    let mut inner = Vec::from_slice(arena, held)?;
    inner.push(claim)?;
    Ok(into_bump_slice(inner))
}

/// The claims within a `synchronized` statement on the value.
fn within<'a>(
    arena: &'a Bump,
    held: &'a [Claim<'a>],
    claim: Option<Claim<'a>>,
) -> Result<&'a [Claim<'a>], OutOfMemory>
    ensures { IfOk result (λ inner. claims_as inner.now ≡ claims_as held.now ++ listed (claim_if_any claim.entry)) }
{
    match claim {
        Some(claim) => with_claim(arena, held, claim),
        None => Ok(held),
    }
}

/// Puts what is done at the head of a `synchronized` statement before the other places.
fn put_head<'a>(
    monitor: &'a Expr,
    held: &'a [Claim<'a>],
    places: &mut Items<Seen<'a>>,
) -> Result<(), OutOfMemory>
    ensures { OnOk result (shown_back places.new ≡ spec.head_seen (claims_as held.now) (term_of monitor.now) (shown_back places.old)) }
{
    let stamp = stamp_of(monitor);
    let phrase = Phrase::One(monitor);
    put(
        places,
        held,
        phrase,
        is_bad(monitor),
        stamp.first,
        What::Locks(monitor),
    )?;
    put_expr(monitor, held, phrase, places)?;
    Ok(())
}

/// Puts what a start of a thread does before the other places.
fn put_start<'a>(
    at: u32,
    value: &'a Expr,
    held: &'a [Claim<'a>],
    places: &mut Items<Seen<'a>>,
) -> Result<(), OutOfMemory>
    ensures { OnOk result (shown_back places.new ≡ spec.start_seen (claims_as held.now) at (term_of value.now) (shown_back places.old)) }
{
    let phrase = Phrase::One(value);
    put(places, held, phrase, is_bad(value), at, What::Starts(value))?;
    put_value(value, Goal::ToThread, held, phrase, places)?;
    Ok(())
}

/// Puts what an assignment does before the other places.
fn put_assign<'a>(
    target: &'a Expr,
    value: &'a Expr,
    held: &'a [Claim<'a>],
    places: &mut Items<Seen<'a>>,
) -> Result<(), OutOfMemory>
    ensures { OnOk result (shown_back places.new ≡ spec.assign_seen (claims_as held.now) (term_of target.now) (term_of value.now) (shown_back places.old)) }
{
    let phrase = Phrase::Two(target, value);
    put_write(target, held, phrase, places)?;
    put_value(value, target_goal(target), held, phrase, places)?;
    put_base(target, held, phrase, places)?;
    Ok(())
}

/// Puts what a compound assignment does before the other places.
fn put_compound<'a>(
    target: &'a Expr,
    value: &'a Expr,
    held: &'a [Claim<'a>],
    places: &mut Items<Seen<'a>>,
) -> Result<(), OutOfMemory>
    ensures { OnOk result (shown_back places.new ≡ spec.compound_seen (claims_as held.now) (term_of target.now) (term_of value.now) (shown_back places.old)) }
{
    let phrase = Phrase::Two(target, value);
    put_write(target, held, phrase, places)?;
    put_expr(value, held, phrase, places)?;
    put_read(target, held, phrase, places)?;
    put_base(target, held, phrase, places)?;
    Ok(())
}

/// Puts the places of a statement before the others.
#[cycle(stmt)]
#[tactic(auto, using(crate::proofs::Readings::readings))]
fn put_stmt<'a>(
    stmt: &'a Stmt,
    varies: &[bool],
    held: &'a [Claim<'a>],
    arena: &'a Bump,
    places: &mut Items<Seen<'a>>,
) -> Result<(), OutOfMemory>
    ensures { OnOk result (shown_back places.new ≡ spec.statement_seen (varies_in varies.now) (claims_as held.now) (statement_of stmt.now) (shown_back places.old)) }
{
    match stmt {
        Stmt::Block(list) => put_stmts(list.as_slice(), varies, held, arena, places),
        Stmt::Declare(_, local, _, value) => {
            put_value(
                value,
                Goal::ToLocal(*local),
                held,
                Phrase::One(value),
                places,
            )
        }
        Stmt::Assign(target, value) => put_assign(target, value, held, places),
        Stmt::Compound(target, _, value) => put_compound(target, value, held, places),
        Stmt::Perform(value) => put_expr(value, held, Phrase::One(value), places),
        Stmt::Start(at, value) => put_start(*at, value, held, places),
        Stmt::If(condition, yes, no) => {
            put_stmt(no.get(), varies, held, arena, places)?;
            put_stmt(yes.get(), varies, held, arena, places)?;
            put_expr(condition, held, Phrase::One(condition), places)?;
            Ok(())
        }
        Stmt::While(condition, body) => {
            put_stmt(body.get(), varies, held, arena, places)?;
            put_expr(condition, held, Phrase::One(condition), places)?;
            Ok(())
        }
        Stmt::Sync(monitor, body) => {
            let inner = within(arena, held, claim_of(monitor, varies))?;
            put_stmt(body.get(), varies, inner, arena, places)?;
            put_head(monitor, held, places)?;
            Ok(())
        }
        Stmt::SyncClass(_, class, body) => {
            let inner = with_claim(arena, held, Claim::Class(class.as_slice()))?;
            put_stmt(body.get(), varies, inner, arena, places)?;
            Ok(())
        }
        Stmt::Return(_) => Ok(()),
        Stmt::ReturnValue(_, value) => {
            put_value(value, Goal::ToResult, held, Phrase::One(value), places)
        }
    }
}

#[cycle(stmt)]
fn put_stmts<'a>(
    list: &'a [Stmt],
    varies: &[bool],
    held: &'a [Claim<'a>],
    arena: &'a Bump,
    places: &mut Items<Seen<'a>>,
) -> Result<(), OutOfMemory>
    ensures { OnOk result (shown_back places.new ≡ spec.statements_seen (varies_in varies.now) (claims_as held.now) (statements_of list.now) (shown_back places.old)) }
{
    let mut at = list.len();
    while at > 0 {
        at -= 1;
        put_stmt(&list[at], varies, held, arena, places)?;
    }
    Ok(())
}

/// The claim of a member that is synchronized (JLS 8, 8.4.3.6).
fn member_claims<'a>(
    class: &'a Name,
    body: &Body,
    arena: &'a Bump,
) -> Result<&'a [Claim<'a>], OutOfMemory>
    ensures { IfOk result (λ held. claims_as held.now ≡ member_claims class.now body.now.is_synchronized body.now.is_static) }
{
    if !body.is_synchronized {
        return Ok(&[]);
    }
    let claim = if body.is_static {
        Claim::Class(class.as_slice())
    } else {
        Claim::Local(0)
    };
    with_claim(arena, &[], claim)
}

/// The places of the body, from the last to the first.
fn places_back<'a>(
    class: &'a Name,
    body: &'a Body,
    varies: &[bool],
    alloc: Global,
    arena: &'a Bump,
) -> Result<Items<Seen<'a>>, OutOfMemory>
    ensures { IfOk result (λ list. shown_back list ≡ spec.body_seen (varies_in varies.now) class.now body.now) }
{
    let held = member_claims(class, body, arena)?;
    let mut places = Items::new(alloc);
    put_stmt(&body.block, varies, held, arena, &mut places)?;
    Ok(places)
}

/// The places of the unit in the order of evaluation, each with the claims of the monitors around it.
/// `varies` says of each local, by its number, whether it is assigned behind its declaration. Lists
/// of claims are laid into the arena; nothing else is copied.
#[tactic(auto, using(crate::proofs::Walks::body_walk))]
pub fn seen_places<'a>(
    unit: &'a BoundTree,
    varies: &[bool],
    alloc: Global,
    arena: &'a Bump,
) -> Result<Vec<Seen<'a>>, OutOfMemory>
    ensures { IfOk result (λ places. all_shown places.items ≡ all_seen (varies_in varies.now) [] (places_of unit.now)) }
{
    match &unit.part {
        Part::Body(body) => {
            let back = places_back(&unit.class, body, varies, alloc, arena)?;
            Ok(back.as_slice().iter().rev().copied().collect(alloc)?)
        }
        Part::Header(_) | Part::Field(_, _) | Part::Sig(_, _) => Ok(Vec::new(alloc)),
    }
}
