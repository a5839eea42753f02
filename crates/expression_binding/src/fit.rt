ghost use Rattle.std.specs.Prelude.{◌||◌, ◌≡◌, ℕ, ◌++◌, false, map, IfOk, OnOk};
ghost use Rattle.desk_base.specs.declared.span.Span.{Span};
ghost use Rattle.bound_tree.specs.Reading.{term_of};
ghost use Rattle.name_rules.specs.Places.{shown_place, AnyValue};
ghost use Rattle.tree_places.specs.Numbers.{number_of};
ghost use Rattle.tree_places.specs.Plain.{plain_expr};
ghost use Rattle.expression_binding.specs.Before.{shown_before, OnValue};
ghost use Rattle.expression_binding.specs.Stamps as stamps;
ghost use Rattle.expression_binding.specs.Changes as changes;
ghost use Rattle.expression_binding.specs.Bound as spec;

use crate::before::Before;
use crate::grounds::Ground;
use crate::stamp::judged_given;
use bound_tree::{Expr, Stamp, is_bad, stamp_of};
use desk_base::{Items, OutOfMemory};
use name_rules::{Note, Place, TypeTable, misplaced, put_finding};
use result_records::FindingCode;

/// What comes to an expression behind its making: parentheses, or a place that it doesn't suit.
#[derive(Clone, Copy)]
pub(crate) enum Change {
    /// Parentheses stand around it, the first of them at the number.
    From(u32),
    /// It doesn't suit its place, and the finding stands at parentheses, or at itself.
    Spoilt(bool),
}

fn spoilt(in_paren: bool, stamp: Stamp) -> Stamp
    ensures { result ≡ stamps.spoilt_stamp in_paren stamp }
{
    if in_paren {
        Stamp {
            at: stamp.at,
            first: stamp.first,
            ty: None,
            is_faulty: stamp.is_faulty,
            is_misplaced: true,
        }
    } else {
        Stamp {
            at: stamp.at,
            first: stamp.first,
            ty: None,
            is_faulty: true,
            is_misplaced: stamp.is_misplaced,
        }
    }
}

fn changed(change: Change, stamp: Stamp) -> Stamp
    ensures { result ≡ changes.changed change stamp }
{
    match change {
        Change::From(first) => Stamp {
            at: stamp.at,
            first,
            ty: stamp.ty,
            is_faulty: stamp.is_faulty,
            is_misplaced: stamp.is_misplaced,
        },
        Change::Spoilt(in_paren) => spoilt(in_paren, stamp),
    }
}

/// The same expression with its stamp changed.
#[tactic(auto, using(bound_tree::proofs::Readings::readings))]
pub(crate) fn restamped(change: Change, expr: Expr) -> Expr
    ensures { term_of result ≡ stamps.restamped (changes.changed change) (term_of expr) }
{
    match expr {
        Expr::Const(stamp, literal) => Expr::Const(changed(change, stamp), literal),
        Expr::This(stamp) => Expr::This(changed(change, stamp)),
        Expr::Local(stamp, local) => Expr::Local(changed(change, stamp), local),
        Expr::Field(stamp, base, field) => Expr::Field(changed(change, stamp), base, field),
        Expr::Static(stamp, field) => Expr::Static(changed(change, stamp), field),
        Expr::New(stamp, class, args) => Expr::New(changed(change, stamp), class, args),
        Expr::Call(stamp, receiver, member, args) => {
            Expr::Call(changed(change, stamp), receiver, member, args)
        }
        Expr::CallStatic(stamp, member, args) => {
            Expr::CallStatic(changed(change, stamp), member, args)
        }
        Expr::Unknown(stamp, name, args) => Expr::Unknown(changed(change, stamp), name, args),
        Expr::UnknownField(stamp, base, name) => {
            Expr::UnknownField(changed(change, stamp), base, name)
        }
        Expr::UnknownCall(stamp, receiver, name, args) => {
            Expr::UnknownCall(changed(change, stamp), receiver, name, args)
        }
        Expr::Unary(stamp, op, operand) => Expr::Unary(changed(change, stamp), op, operand),
        Expr::And(stamp, left, right) => Expr::And(changed(change, stamp), left, right),
        Expr::Or(stamp, left, right) => Expr::Or(changed(change, stamp), left, right),
        Expr::Binary(stamp, op, left, right) => {
            Expr::Binary(changed(change, stamp), op, left, right)
        }
    }
}

/// The same expression with a bind finding at it.
pub fn faulted(expr: Expr) -> Expr
    ensures { term_of result ≡ stamps.restamped (stamps.spoilt_stamp false) (term_of expr) }
{
    restamped(Change::Spoilt(false), expr)
}

/// Whether the expression as it is written is in parentheses.
#[tactic(auto, using(tree_places::proofs::PlainShapes::plain_shapes))]
pub(crate) fn is_paren(expr: &java_tree::Expr) -> bool
    ensures { (number : Span → ℕ) → result ≡ spec.is_paren (plain_expr number expr.now) }
{
    match expr {
        java_tree::Expr::Paren(_, _, _) => true,
        java_tree::Expr::Int(_)
        | java_tree::Expr::Str(_)
        | java_tree::Expr::True(_)
        | java_tree::Expr::False(_)
        | java_tree::Expr::Null(_)
        | java_tree::Expr::This(_)
        | java_tree::Expr::Name(_)
        | java_tree::Expr::Call(_, _, _)
        | java_tree::Expr::New(_, _, _, _)
        | java_tree::Expr::Select(_, _)
        | java_tree::Expr::CallOn(_, _, _, _)
        | java_tree::Expr::Not(_, _)
        | java_tree::Expr::Neg(_, _)
        | java_tree::Expr::Binary(_, _, _, _) => false,
    }
}

fn either(one: bool, other: bool) -> bool
    ensures { result ≡ (one || other) }
{
    one || other
}

/// Whether an expression is bad.
pub(crate) fn any_bad(list: &[Expr]) -> bool
    ensures { result ≡ spec.any_bad (map term_of list.now) }
{
    let mut found = false;
    let mut at = list.len();
    while at > 0 {
        at -= 1;
        found = either(is_bad(&list[at]), found);
    }
    found
}

fn found_at<T: TypeTable>(types: &T, place: &Place<'_>, value: &Expr) -> Option<FindingCode>
    ensures { result ≡ spec.found_at (T.types types.now) (shown_place place.now) (term_of value.now) }
{
    if is_bad(value) {
        return None;
    }
    misplaced(types, place, judged_given(&stamp_of(value).ty))
}

/// The expression in its place, and the finding where it doesn't suit that.
pub(crate) fn fit<T: TypeTable>(
    types: &T,
    place: &Place<'_>,
    in_paren: bool,
    value: Expr,
    notes: &mut Items<Note>,
) -> Result<Expr, OutOfMemory>
    ensures term { IfOk result (λ made. term_of made ≡ spec.fit_term (T.types types.now) (shown_place place.now) in_paren (term_of value)) }
    ensures notes { OnOk result (notes.new ≡ notes.old ++ spec.fit_notes (T.types types.now) (shown_place place.now) (term_of value)) }
{
    match found_at(types, place, &value) {
        None => Ok(value),
        Some(code) => {
            put_finding(notes, code, stamp_of(&value).first)?;
            Ok(restamped(Change::Spoilt(in_paren), value))
        }
    }
}

/// The expression in its place, by how it is written.
pub(crate) fn in_place<T: TypeTable>(
    site: &Ground<'_, T>,
    place: &Place<'_>,
    written: &java_tree::Expr,
    value: Expr,
    notes: &mut Items<Note>,
) -> Result<Expr, OutOfMemory>
    ensures term { IfOk result (λ made. term_of made ≡ spec.fit_term (T.types site.now.types.now) (shown_place place.now) (spec.is_paren (plain_expr (number_of site.now.places.now) written.now)) (term_of value)) }
    ensures notes { OnOk result (notes.new ≡ notes.old ++ spec.fit_notes (T.types site.now.types.now) (shown_place place.now) (term_of value)) }
{
    fit(site.types, place, is_paren(written), value, notes)
}

/// A value before a dot.
pub(crate) fn value_before<'e, T: TypeTable>(
    site: &Ground<'_, T>,
    written: &java_tree::Expr,
    value: Expr,
    notes: &mut Items<Note>,
) -> Result<Before<'e>, OutOfMemory>
    ensures base { IfOk result (λ made. shown_before made ≡ OnValue (spec.fit_term (T.types site.now.types.now) AnyValue (spec.is_paren (plain_expr (number_of site.now.places.now) written.now)) (term_of value))) }
    ensures notes { OnOk result (notes.new ≡ notes.old ++ spec.fit_notes (T.types site.now.types.now) AnyValue (term_of value)) }
{
    let value = in_place(site, &Place::AnyValue, written, value, notes)?;
    Ok(Before::OnValue(value))
}
