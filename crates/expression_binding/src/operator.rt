ghost use Rattle.std.specs.Prelude.{◌≡◌, ◌++◌, IfOk, OnOk};
ghost use Rattle.bound_tree.specs.Reading.{term_of};
ghost use Rattle.name_rules.specs.Places.{shown_place};
ghost use Rattle.expression_binding.specs.Bound as spec;

use crate::fit::fit;
use crate::grounds::Ground;
use crate::stamp::{judged_type, unless_bad};
use bound_tree::{Expr, Stamp, UnaryOp, ValueType, is_bad, stamp_of};
use core_model::Op;
use desk_base::{Boxed, Items, OutOfMemory};
use java_tree::BinaryOp;
use name_rules::{Note, Place, TypeTable};
use std::alloc::Global;

fn operand_type(op: UnaryOp) -> ValueType
    ensures { result ≡ spec.operand_type op }
{
    match op {
        UnaryOp::Not => ValueType::Boolean,
        UnaryOp::Negate => ValueType::Int,
    }
}

/// An operator on one value, which stands in its place.
#[tactic(auto, using(bound_tree::proofs::Readings::readings))]
pub(crate) fn on_one(
    alloc: Global,
    op: UnaryOp,
    at: u32,
    operand: Expr,
) -> Result<Expr, OutOfMemory>
    ensures { IfOk result (λ made. term_of made ≡ spec.on_one op at (term_of operand)) }
{
    let stamp = unless_bad(is_bad(&operand), at, at, operand_type(op));
    Ok(Expr::Unary(stamp, op, Boxed::new(alloc, operand)?))
}

/// The place of the first operand.
pub(crate) fn left_place(op: BinaryOp) -> Place<'static>
    ensures { shown_place result ≡ spec.left_place op }
{
    match op {
        BinaryOp::Or | BinaryOp::And => Place::Boolean,
        BinaryOp::Equal | BinaryOp::NotEqual => Place::AnyValue,
        BinaryOp::Less
        | BinaryOp::Greater
        | BinaryOp::AtMost
        | BinaryOp::AtLeast
        | BinaryOp::Add
        | BinaryOp::Subtract
        | BinaryOp::Multiply
        | BinaryOp::Divide
        | BinaryOp::Remainder => Place::Int,
    }
}

fn beside(ty: &Option<ValueType>) -> Place<'_>
    ensures { shown_place result ≡ spec.beside ty.now }
{
    match ty {
        Some(ty) => Place::Beside(judged_type(ty)),
        None => Place::AnyValue,
    }
}

/// The place of the second operand, by the type of the first one.
fn right_place(op: BinaryOp, ty: &Option<ValueType>) -> Place<'_>
    ensures { shown_place result ≡ spec.right_place op ty.now }
{
    match op {
        BinaryOp::Equal | BinaryOp::NotEqual => beside(ty),
        BinaryOp::Or
        | BinaryOp::And
        | BinaryOp::Less
        | BinaryOp::Greater
        | BinaryOp::AtMost
        | BinaryOp::AtLeast
        | BinaryOp::Add
        | BinaryOp::Subtract
        | BinaryOp::Multiply
        | BinaryOp::Divide
        | BinaryOp::Remainder => left_place(op),
    }
}

fn type_on_two(op: BinaryOp) -> ValueType
    ensures { result ≡ spec.type_on_two op }
{
    match op {
        BinaryOp::Add
        | BinaryOp::Subtract
        | BinaryOp::Multiply
        | BinaryOp::Divide
        | BinaryOp::Remainder => ValueType::Int,
        BinaryOp::Or
        | BinaryOp::And
        | BinaryOp::Equal
        | BinaryOp::NotEqual
        | BinaryOp::Less
        | BinaryOp::Greater
        | BinaryOp::AtMost
        | BinaryOp::AtLeast => ValueType::Boolean,
    }
}

#[tactic(auto, using(bound_tree::proofs::Readings::readings))]
fn term_on_two(op: BinaryOp, stamp: Stamp, left: Boxed<Expr>, right: Boxed<Expr>) -> Expr
    ensures { term_of result ≡ spec.term_on_two op stamp (term_of left) (term_of right) }
{
    match op {
        BinaryOp::Or => Expr::Or(stamp, left, right),
        BinaryOp::And => Expr::And(stamp, left, right),
        BinaryOp::Equal => Expr::Binary(stamp, Op::Equal, left, right),
        BinaryOp::NotEqual => Expr::Binary(stamp, Op::NotEqual, left, right),
        BinaryOp::Less => Expr::Binary(stamp, Op::Less, left, right),
        BinaryOp::Greater => Expr::Binary(stamp, Op::Greater, left, right),
        BinaryOp::AtMost => Expr::Binary(stamp, Op::AtMost, left, right),
        BinaryOp::AtLeast => Expr::Binary(stamp, Op::AtLeast, left, right),
        BinaryOp::Add => Expr::Binary(stamp, Op::Add, left, right),
        BinaryOp::Subtract => Expr::Binary(stamp, Op::Subtract, left, right),
        BinaryOp::Multiply => Expr::Binary(stamp, Op::Multiply, left, right),
        BinaryOp::Divide => Expr::Binary(stamp, Op::Divide, left, right),
        BinaryOp::Remainder => Expr::Binary(stamp, Op::Remainder, left, right),
    }
}

/// Whether one of the operands is bad.
fn is_either_bad(left: &Expr, right: &Expr) -> bool
    ensures { result ≡ spec.is_either_bad (term_of left.now) (term_of right.now) }
{
    is_bad(left) || is_bad(right)
}

fn joined(
    alloc: Global,
    op: BinaryOp,
    at: u32,
    left: Expr,
    right: Expr,
) -> Result<Expr, OutOfMemory>
    ensures { IfOk result (λ made. term_of made ≡ spec.joined op at (term_of left) (term_of right)) }
{
    let bad = is_either_bad(&left, &right);
    let stamp = unless_bad(bad, at, stamp_of(&left).first, type_on_two(op));
    let left = Boxed::new(alloc, left)?;
    let right = Boxed::new(alloc, right)?;
    Ok(term_on_two(op, stamp, left, right))
}

/// An operator on two values, of which the first stands in its place.
pub(crate) fn on_two<T: TypeTable>(
    site: &Ground<'_, T>,
    op: BinaryOp,
    at: u32,
    left: Expr,
    in_paren: bool,
    right: Expr,
    notes: &mut Items<Note>,
) -> Result<Expr, OutOfMemory>
    ensures term { IfOk result (λ made. term_of made ≡ spec.on_two (T.types site.now.types.now) op at (term_of left) in_paren (term_of right)) }
    ensures notes { OnOk result (notes.new ≡ notes.old ++ spec.right_notes (T.types site.now.types.now) op (term_of left) (term_of right)) }
{
    let ty = &stamp_of(&left).ty;
    let right = fit(site.types, &right_place(op, ty), in_paren, right, notes)?;
    joined(site.alloc, op, at, left, right)
}
