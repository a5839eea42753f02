ghost use Rattle.std.specs.Prelude.{◌≡◌, ◌&&◌, ◌++◌, not, IfOk, OnOk};
ghost use Rattle.bound_tree.specs.Tree as t;
ghost use Rattle.bound_tree.specs.Reading.{statement_of, term_of};
ghost use Rattle.name_rules.specs.Places.{shown_place};
ghost use Rattle.expression_binding.specs.Bound.{grounded, fitted};
ghost use Rattle.tree_places.specs.Numbers.{number_of};
ghost use Rattle.tree_places.specs.Plain.{plain_expr};
ghost use Rattle.statement_binding.specs.Writes as spec;

use crate::finals::is_final;
use bound_tree::{Expr, Literal, Stmt, ValueType, is_bad, stamp_of};
use class_faces::FaceTy;
use core_model::Op;
use desk_base::{Items, OutOfMemory};
use expression_binding::{Ground, bind_expr, faulted, sound};
use java_tree::{Expr as Java, StepOp};
use name_rules::{Note, Place, Scope, TypeTable, put_finding_if};
use result_records::FindingCode;

/// The declared type of a target with such a value.
fn asked_type(ty: &ValueType) -> Result<FaceTy, OutOfMemory>
    ensures { IfOk result (λ made. made ≡ spec.asked_type ty.now) }
{
    match ty {
        ValueType::Int => Ok(FaceTy::Int),
        ValueType::Boolean => Ok(FaceTy::Bool),
        ValueType::Null => Ok(FaceTy::Args),
        ValueType::Named(class) => Ok(FaceTy::Named(class.clone()?)),
    }
}

/// What is assigned to a target with such a value, or with none that can be used.
fn assigned_value<T: TypeTable>(
    site: &Ground<'_, T>,
    scope: &Scope,
    ty: &Option<ValueType>,
    value: &Java,
    notes: &mut Items<Note>,
) -> Result<Expr, OutOfMemory>
    ensures term { IfOk result (λ made. term_of made ≡ (fitted (grounded (T.types site.now.types.now) site.now.class.now site.now.is_static) scope.now (spec.assigned_place ty.now) (plain_expr (number_of site.now.places.now) value.now)).term) }
    ensures notes { OnOk result (notes.new ≡ notes.old ++ (fitted (grounded (T.types site.now.types.now) site.now.class.now site.now.is_static) scope.now (spec.assigned_place ty.now) (plain_expr (number_of site.now.places.now) value.now)).notes) }
{
    match ty {
        Some(ty) => {
            let ty = asked_type(ty)?;
            bind_expr(site, scope, &Place::Of(&ty), value, notes)
        }
        None => bind_expr(site, scope, &Place::Anywhere, value, notes),
    }
}

/// Whether a target, as it is written and as it is bound, is a final that isn't to be written here.
fn is_forbidden<T: TypeTable>(
    site: &Ground<'_, T>,
    scope: &Scope,
    may: bool,
    target: &Java,
    bound: &Expr,
) -> bool
    ensures { result ≡ spec.is_forbidden (grounded (T.types site.now.types.now) site.now.class.now site.now.is_static) scope.now may (plain_expr (number_of site.now.places.now) target.now) (term_of bound.now) }
{
    !is_bad(bound) && is_final(site, scope, target, bound) && !may
}

fn target_if(forbidden: bool, bound: Expr) -> Expr
    ensures { term_of result ≡ spec.target_if forbidden (term_of bound) }
{
    if forbidden { faulted(bound) } else { bound }
}

/// The target of a write, with the finding at its name where it isn't to be written.
fn judged_target<T: TypeTable>(
    site: &Ground<'_, T>,
    scope: &Scope,
    may: bool,
    target: &Java,
    bound: Expr,
    notes: &mut Items<Note>,
) -> Result<Expr, OutOfMemory>
    ensures term { IfOk result (λ made. term_of made ≡ spec.target_if (spec.is_forbidden (grounded (T.types site.now.types.now) site.now.class.now site.now.is_static) scope.now may (plain_expr (number_of site.now.places.now) target.now) (term_of bound)) (term_of bound)) }
    ensures notes { OnOk result (notes.new ≡ notes.old ++ spec.write_notes (spec.is_forbidden (grounded (T.types site.now.types.now) site.now.class.now site.now.is_static) scope.now may (plain_expr (number_of site.now.places.now) target.now) (term_of bound)) (term_of bound)) }
{
    let forbidden = is_forbidden(site, scope, may, target, &bound);
    put_finding_if(
        notes,
        forbidden,
        FindingCode::FinalWrite,
        stamp_of(&bound).at,
    )?;
    Ok(target_if(forbidden, bound))
}

#[tactic(auto, using(bound_tree::proofs::Readings::readings))]
fn assign(target: Expr, value: Expr) -> Stmt
    ensures { statement_of result ≡ t.Assign (term_of target) (term_of value) }
{
    Stmt::Assign(target, value)
}

#[tactic(auto, using(bound_tree::proofs::Readings::readings))]
fn compound(target: Expr, op: Op, value: Expr) -> Stmt
    ensures { statement_of result ≡ t.Compound (term_of target) op (term_of value) }
{
    Stmt::Compound(target, op, value)
}

/// An assignment by `=`, to a final only where that may be written.
#[tactic(auto, using(crate::proofs::Appends::appends))]
pub(crate) fn bind_set<T: TypeTable>(
    site: &Ground<'_, T>,
    scope: &Scope,
    may: bool,
    target: &Java,
    value: &Java,
    notes: &mut Items<Note>,
) -> Result<Stmt, OutOfMemory>
    ensures made { IfOk result (λ made. statement_of made ≡ (spec.set (grounded (T.types site.now.types.now) site.now.class.now site.now.is_static) scope.now may (plain_expr (number_of site.now.places.now) target.now) (plain_expr (number_of site.now.places.now) value.now)).made) }
    ensures notes { OnOk result (notes.new ≡ notes.old ++ (spec.set (grounded (T.types site.now.types.now) site.now.class.now site.now.is_static) scope.now may (plain_expr (number_of site.now.places.now) target.now) (plain_expr (number_of site.now.places.now) value.now)).notes) }
{
    let bound = bind_expr(site, scope, &Place::Anywhere, target, notes)?;
    let value = assigned_value(site, scope, &stamp_of(&bound).ty, value, notes)?;
    let bound = judged_target(site, scope, may, target, bound, notes)?;
    Ok(assign(bound, value))
}

/// An assignment that reads the int that it writes.
#[tactic(auto, using(crate::proofs::Appends::appends))]
pub(crate) fn bind_compound<T: TypeTable>(
    site: &Ground<'_, T>,
    scope: &Scope,
    op: Op,
    target: &Java,
    value: &Java,
    notes: &mut Items<Note>,
) -> Result<Stmt, OutOfMemory>
    ensures made { IfOk result (λ made. statement_of made ≡ (spec.changed (grounded (T.types site.now.types.now) site.now.class.now site.now.is_static) scope.now op (plain_expr (number_of site.now.places.now) target.now) (spec.int_value (grounded (T.types site.now.types.now) site.now.class.now site.now.is_static) scope.now (plain_expr (number_of site.now.places.now) value.now))).made) }
    ensures notes { OnOk result (notes.new ≡ notes.old ++ (spec.changed (grounded (T.types site.now.types.now) site.now.class.now site.now.is_static) scope.now op (plain_expr (number_of site.now.places.now) target.now) (spec.int_value (grounded (T.types site.now.types.now) site.now.class.now site.now.is_static) scope.now (plain_expr (number_of site.now.places.now) value.now))).notes) }
{
    let bound = bind_expr(site, scope, &Place::Int, target, notes)?;
    let value = bind_expr(site, scope, &Place::Int, value, notes)?;
    let bound = judged_target(site, scope, false, target, bound, notes)?;
    Ok(compound(bound, op, value))
}

fn step_op(op: StepOp) -> Op
    ensures { result ≡ spec.step_op op }
{
    match op {
        StepOp::Increment => Op::Add,
        StepOp::Decrement => Op::Subtract,
    }
}

#[tactic(auto, using(bound_tree::proofs::Readings::readings))]
fn one_at(at: u32) -> Expr
    ensures { term_of result ≡ (spec.one at).term }
{
    Expr::Const(sound(at, at, Some(ValueType::Int)), Literal::Int(1))
}

/// A step, whose sign stands at a number.
#[tactic(auto, using(crate::proofs::Appends::appends))]
pub(crate) fn bind_step<T: TypeTable>(
    site: &Ground<'_, T>,
    scope: &Scope,
    op: StepOp,
    at: u32,
    target: &Java,
    notes: &mut Items<Note>,
) -> Result<Stmt, OutOfMemory>
    ensures made { IfOk result (λ made. statement_of made ≡ (spec.stepped (grounded (T.types site.now.types.now) site.now.class.now site.now.is_static) scope.now op at (plain_expr (number_of site.now.places.now) target.now)).made) }
    ensures notes { OnOk result (notes.new ≡ notes.old ++ (spec.stepped (grounded (T.types site.now.types.now) site.now.class.now site.now.is_static) scope.now op at (plain_expr (number_of site.now.places.now) target.now)).notes) }
{
    let bound = bind_expr(site, scope, &Place::Int, target, notes)?;
    let bound = judged_target(site, scope, false, target, bound, notes)?;
    Ok(compound(bound, step_op(op), one_at(at)))
}
