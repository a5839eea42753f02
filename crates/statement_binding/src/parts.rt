ghost use Rattle.std.specs.Prelude.{◌≡◌, [], ◌∷◌, ◌++◌, map, IfOk, OnOk};
ghost use Rattle.std.specs.Option.{option_map};
ghost use Rattle.bound_tree.specs.Tree as t;
ghost use Rattle.bound_tree.specs.Reading.{statement_of, term_of};
ghost use Rattle.expression_binding.specs.Bound.{grounded};
ghost use Rattle.tree_places.specs.Numbers.{number_of};
ghost use Rattle.tree_places.specs.Plain.{plain_action, plain_expr, plain_first};
ghost use Rattle.statement_binding.specs.Done.{block_of};
ghost use Rattle.statement_binding.specs.Heads as spec;

use crate::action::bind_action;
use crate::head::{bind_condition, repeat};
use crate::locals::{Locals, bind_local};
use bound_tree::{Expr, Literal, Stmt, ValueType};
use desk_base::{Items, OutOfMemory};
use expression_binding::{Ground, sound};
use java_tree::{Action, Expr as Java, ForFirst};
use name_rules::{Note, Scope, TypeTable};
use std::alloc::Global;

/// Statements that are done one after another.
#[tactic(auto, using(bound_tree::proofs::Readings::readings))]
pub(crate) fn block(list: Items<Stmt>) -> Stmt
    ensures { statement_of result ≡ block_of (map statement_of list) }
{
    Stmt::Block(list)
}

/// Nothing to be done.
pub(crate) fn nothing(alloc: Global) -> Stmt
    ensures { statement_of result ≡ block_of [] }
{
    block(Items::new(alloc))
}

fn one(alloc: Global, stmt: Stmt) -> Result<Items<Stmt>, OutOfMemory>
    ensures { IfOk result (λ list. map statement_of list ≡ statement_of stmt ∷ []) }
{
    let mut list = Items::new(alloc);
    list.push(stmt)?;
    Ok(list)
}

#[tactic(auto, using(crate::proofs::Blocks::map_pushed))]
fn with(mut list: Items<Stmt>, stmt: Stmt) -> Result<Items<Stmt>, OutOfMemory>
    ensures { IfOk result (λ more. map statement_of more ≡ map statement_of list ++ statement_of stmt ∷ []) }
{
    list.push(stmt)?;
    Ok(list)
}

// ---- the parts of a `for`

/// The first part, whose local is in scope behind it.
pub(crate) fn bind_first<T: TypeTable>(
    site: &Ground<'_, T>,
    locals: &mut Locals,
    first: &ForFirst,
    notes: &mut Items<Note>,
) -> Result<Items<Stmt>, OutOfMemory>
    ensures made { IfOk result (λ made. map statement_of made ≡ (spec.first_done (grounded (T.types site.now.types.now) site.now.class.now site.now.is_static) locals.old (plain_first (number_of site.now.places.now) first.now)).made) }
    ensures notes { OnOk result (notes.new ≡ notes.old ++ (spec.first_done (grounded (T.types site.now.types.now) site.now.class.now site.now.is_static) locals.old (plain_first (number_of site.now.places.now) first.now)).notes) }
    ensures locals { OnOk result (locals.new ≡ spec.behind_first locals.old (plain_first (number_of site.now.places.now) first.now)) }
{
    match first {
        ForFirst::Nothing => Ok(Items::new(site.alloc)),
        ForFirst::Local(local) => {
            let made = bind_local(site, locals, local, notes)?;
            one(site.alloc, made)
        }
        ForFirst::Action(action) => {
            let made = bind_action(site, &locals.scope, action, notes)?;
            one(site.alloc, made)
        }
    }
}

#[tactic(auto, using(bound_tree::proofs::Readings::readings))]
fn always(at: u32) -> Expr
    ensures { term_of result ≡ (spec.always at).term }
{
    Expr::Const(
        sound(at, at, Some(ValueType::Boolean)),
        Literal::Boolean(true),
    )
}

/// The condition of a `for`, whose word stands at a number.
pub(crate) fn bind_test<T: TypeTable>(
    site: &Ground<'_, T>,
    scope: &Scope,
    at: u32,
    test: &Option<Java>,
    notes: &mut Items<Note>,
) -> Result<Expr, OutOfMemory>
    ensures term { IfOk result (λ made. term_of made ≡ (spec.condition_if_any (grounded (T.types site.now.types.now) site.now.class.now site.now.is_static) scope.now at (option_map (plain_expr (number_of site.now.places.now)) test.now)).term) }
    ensures notes { OnOk result (notes.new ≡ notes.old ++ (spec.condition_if_any (grounded (T.types site.now.types.now) site.now.class.now site.now.is_static) scope.now at (option_map (plain_expr (number_of site.now.places.now)) test.now)).notes) }
{
    match test {
        Some(test) => bind_condition(site, scope, test, notes),
        None => Ok(always(at)),
    }
}

/// The body of a `for` with the last part behind it.
pub(crate) fn bind_last<T: TypeTable>(
    site: &Ground<'_, T>,
    scope: &Scope,
    body: Stmt,
    last: &Option<Action>,
    notes: &mut Items<Note>,
) -> Result<Stmt, OutOfMemory>
    ensures made { IfOk result (λ made. statement_of made ≡ block_of (statement_of body ∷ (spec.last_done (grounded (T.types site.now.types.now) site.now.class.now site.now.is_static) scope.now (option_map (plain_action (number_of site.now.places.now)) last.now)).made)) }
    ensures notes { OnOk result (notes.new ≡ notes.old ++ (spec.last_done (grounded (T.types site.now.types.now) site.now.class.now site.now.is_static) scope.now (option_map (plain_action (number_of site.now.places.now)) last.now)).notes) }
{
    let list = one(site.alloc, body)?;
    match last {
        Some(action) => {
            let made = bind_action(site, scope, action, notes)?;
            Ok(block(with(list, made)?))
        }
        None => Ok(block(list)),
    }
}

/// A `for` of its bound parts.
pub(crate) fn looped(
    alloc: Global,
    first: Items<Stmt>,
    test: Expr,
    body: Stmt,
) -> Result<Stmt, OutOfMemory>
    ensures { IfOk result (λ made. statement_of made ≡ block_of (map statement_of first ++ t.While (term_of test) (statement_of body) ∷ [])) }
{
    let turns = repeat(alloc, test, body)?;
    Ok(block(with(first, turns)?))
}
