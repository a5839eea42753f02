ghost use Rattle.std.specs.Prelude.{◌≡◌, ◌++◌, IfOk, OnOk};
ghost use Rattle.bound_tree.specs.Reading.{statement_of, term_of};
ghost use Rattle.bound_tree.specs.Tree as t;
ghost use Rattle.expression_binding.specs.Bound.{grounded};
ghost use Rattle.tree_places.specs.Numbers.{number_of};
ghost use Rattle.tree_places.specs.Plain.{plain_action, plain_expr};
ghost use Rattle.statement_binding.specs.Writes as spec;

use crate::write::{bind_compound, bind_set, bind_step};
use bound_tree::{Expr, Stmt};
use core_model::Op;
use desk_base::{Items, OutOfMemory};
use expression_binding::{Ground, bind_expr};
use java_tree::{Action, AssignOp, Expr as Java};
use name_rules::{Note, Place, Scope, TypeTable};

#[tactic(auto, using(bound_tree::proofs::Readings::readings))]
fn perform(value: Expr) -> Stmt
    ensures { statement_of result ≡ t.Perform (term_of value) }
{
    Stmt::Perform(value)
}

#[tactic(auto, using(bound_tree::proofs::Readings::readings))]
fn start(at: u32, value: Expr) -> Stmt
    ensures { statement_of result ≡ t.Start at (term_of value) }
{
    Stmt::Start(at, value)
}

/// An assignment where no final may be written.
pub(crate) fn bind_assign<T: TypeTable>(
    site: &Ground<'_, T>,
    scope: &Scope,
    op: AssignOp,
    target: &Java,
    value: &Java,
    notes: &mut Items<Note>,
) -> Result<Stmt, OutOfMemory>
    ensures made { IfOk result (λ made. statement_of made ≡ (spec.by_sign (grounded (T.types site.now.types.now) site.now.class.now site.now.is_static) scope.now op (plain_expr (number_of site.now.places.now) target.now) (plain_expr (number_of site.now.places.now) value.now)).made) }
    ensures notes { OnOk result (notes.new ≡ notes.old ++ (spec.by_sign (grounded (T.types site.now.types.now) site.now.class.now site.now.is_static) scope.now op (plain_expr (number_of site.now.places.now) target.now) (plain_expr (number_of site.now.places.now) value.now)).notes) }
{
    match op {
        AssignOp::Set => bind_set(site, scope, false, target, value, notes),
        AssignOp::Add => bind_compound(site, scope, Op::Add, target, value, notes),
        AssignOp::Subtract => bind_compound(site, scope, Op::Subtract, target, value, notes),
    }
}

/// A call or `new` whose value is dropped.
fn bind_performed<T: TypeTable>(
    site: &Ground<'_, T>,
    scope: &Scope,
    value: &Java,
    notes: &mut Items<Note>,
) -> Result<Stmt, OutOfMemory>
    ensures made { IfOk result (λ made. statement_of made ≡ (spec.dropped (grounded (T.types site.now.types.now) site.now.class.now site.now.is_static) scope.now (plain_expr (number_of site.now.places.now) value.now)).made) }
    ensures notes { OnOk result (notes.new ≡ notes.old ++ (spec.dropped (grounded (T.types site.now.types.now) site.now.class.now site.now.is_static) scope.now (plain_expr (number_of site.now.places.now) value.now)).notes) }
{
    let value = bind_expr(site, scope, &Place::Anywhere, value, notes)?;
    Ok(perform(value))
}

/// The start of a thread, whose word `new` stands at a number.
fn bind_start<T: TypeTable>(
    site: &Ground<'_, T>,
    scope: &Scope,
    at: u32,
    value: &Java,
    notes: &mut Items<Note>,
) -> Result<Stmt, OutOfMemory>
    ensures made { IfOk result (λ made. statement_of made ≡ (spec.thread (grounded (T.types site.now.types.now) site.now.class.now site.now.is_static) scope.now at (plain_expr (number_of site.now.places.now) value.now)).made) }
    ensures notes { OnOk result (notes.new ≡ notes.old ++ (spec.thread (grounded (T.types site.now.types.now) site.now.class.now site.now.is_static) scope.now at (plain_expr (number_of site.now.places.now) value.now)).notes) }
{
    let value = bind_expr(site, scope, &Place::Started, value, notes)?;
    Ok(start(at, value))
}

/// An action where no final may be written.
pub(crate) fn bind_action<T: TypeTable>(
    site: &Ground<'_, T>,
    scope: &Scope,
    action: &Action,
    notes: &mut Items<Note>,
) -> Result<Stmt, OutOfMemory>
    ensures made { IfOk result (λ made. statement_of made ≡ (spec.action (grounded (T.types site.now.types.now) site.now.class.now site.now.is_static) scope.now (plain_action (number_of site.now.places.now) action.now)).made) }
    ensures notes { OnOk result (notes.new ≡ notes.old ++ (spec.action (grounded (T.types site.now.types.now) site.now.class.now site.now.is_static) scope.now (plain_action (number_of site.now.places.now) action.now)).notes) }
{
    match action {
        Action::Assign(target, op, _, value) => {
            bind_assign(site, scope, *op, target, value, notes)
        }
        Action::StepAfter(target, op, at) => {
            bind_step(site, scope, *op, site.places.place(*at), target, notes)
        }
        Action::StepBefore(at, op, target) => {
            bind_step(site, scope, *op, site.places.place(*at), target, notes)
        }
        Action::Call(value) => bind_performed(site, scope, value, notes),
        Action::New(value) => bind_performed(site, scope, value, notes),
        Action::Start(at, value, _) => {
            bind_start(site, scope, site.places.place(*at), value, notes)
        }
    }
}
