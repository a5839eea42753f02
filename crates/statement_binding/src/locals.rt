ghost use Rattle.std.specs.Prelude.{◌≡◌, ◌++◌, ◌+◌, IfOk, OnOk};
ghost use Rattle.std.specs.Option.{is_some};
ghost use Rattle.bound_tree.specs.Tree as t;
ghost use Rattle.bound_tree.specs.Reading.{statement_of, term_of};
ghost use Rattle.expression_binding.specs.Bound.{grounded};
ghost use Rattle.expression_binding.specs.Stamps.{type_of as type_as};
ghost use Rattle.tree_places.specs.Numbers.{number_of};
ghost use Rattle.tree_places.specs.Plain.{plain_local};
ghost use Rattle.statement_binding.specs.Locals as spec;

use crate::declared::{declared, put_declared};
use bound_tree::{Expr, Stmt};
use class_faces::FaceTy;
use desk_base::{Items, OutOfMemory};
use expression_binding::{Ground, bind_expr, type_of};
use java_tree::Local;
use name_rules::{Entry, Note, Place, Scope, TypeTable, Variable, put_finding_if};
use result_records::FindingCode;

/// The names in scope, and the number of the next local that is declared.
#[derive(Drop)]
pub(crate) struct Locals {
    pub scope: Scope,
    pub next: u32,
}

/// The number behind one. A body with more locals than can be numbered, which is longer than what is
/// read may be, is told as want of memory.
fn number_behind(number: u32) -> Result<u32, OutOfMemory>
    ensures { IfOk result (λ next. next ≡ number + 1) }
{
    match number.checked_add(1) {
        Some(next) => Ok(next),
        None => Err(OutOfMemory),
    }
}

/// Lets the local's name name it from here on, unless the name is in scope, and takes its number.
fn enter(locals: &mut Locals, local: &Local, ty: FaceTy) -> Result<(), OutOfMemory>
    ensures { OnOk result (locals.new ≡ spec.entered locals.old local.now.name.text (is_some local.now.final_word) ty) }
{
    let next = number_behind(locals.next)?;
    let variable = Variable {
        number: locals.next,
        ty,
        is_final: local.final_word.is_some(),
    };
    let entry = Entry {
        name: local.name.text.clone()?,
        variable: Some(variable),
    };
    locals.scope.put(entry)?;
    locals.next = next;
    Ok(())
}

/// The initializer, in which the local isn't in scope, behind the local's type; and what is found of its
/// name.
fn initializer<T: TypeTable>(
    site: &Ground<'_, T>,
    scope: &Scope,
    local: &Local,
    ty: &FaceTy,
    notes: &mut Items<Note>,
) -> Result<Expr, OutOfMemory>
    requires { ty.now ≡ spec.local_type (plain_local (number_of site.now.places.now) local.now) }
    ensures term { IfOk result (λ made. term_of made ≡ (spec.initializer (grounded (T.types site.now.types.now) site.now.class.now site.now.is_static) scope.now (plain_local (number_of site.now.places.now) local.now)).term) }
    ensures notes { OnOk result (notes.new ≡ notes.old ++ spec.declaration_notes (grounded (T.types site.now.types.now) site.now.class.now site.now.is_static) scope.now (plain_local (number_of site.now.places.now) local.now)) }
{
    put_declared(site, &local.ty, notes)?;
    let value = bind_expr(site, scope, &Place::Of(ty), &local.value, notes)?;
    let repeated = scope.has(&local.name.text);
    let at = site.places.place(local.name.span);
    put_finding_if(notes, repeated, FindingCode::RepeatedLocal, at)?;
    Ok(value)
}

#[tactic(auto, using(bound_tree::proofs::Readings::readings))]
fn declare(at: u32, number: u32, ty: &FaceTy, value: Expr) -> Result<Stmt, OutOfMemory>
    ensures { IfOk result (λ made. statement_of made ≡ t.Declare at number (type_as ty.now) (term_of value)) }
{
    Ok(Stmt::Declare(at, number, type_of(ty)?, value))
}

/// The declaration of a local, which is in scope behind it.
pub(crate) fn bind_local<T: TypeTable>(
    site: &Ground<'_, T>,
    locals: &mut Locals,
    local: &Local,
    notes: &mut Items<Note>,
) -> Result<Stmt, OutOfMemory>
    ensures made { IfOk result (λ made. statement_of made ≡ (spec.declaration (grounded (T.types site.now.types.now) site.now.class.now site.now.is_static) locals.old (plain_local (number_of site.now.places.now) local.now)).made) }
    ensures notes { OnOk result (notes.new ≡ notes.old ++ (spec.declaration (grounded (T.types site.now.types.now) site.now.class.now site.now.is_static) locals.old (plain_local (number_of site.now.places.now) local.now)).notes) }
    ensures locals { OnOk result (locals.new ≡ spec.with_local locals.old (plain_local (number_of site.now.places.now) local.now)) }
{
    let ty = declared(&local.ty)?;
    let value = initializer(site, &locals.scope, local, &ty, notes)?;
    let at = site.places.place(local.name.span);
    let made = declare(at, locals.next, &ty, value)?;
    enter(locals, local, ty)?;
    Ok(made)
}
