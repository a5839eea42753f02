ghost use Rattle.std.specs.Prelude.{◌≡◌, [], ◌++◌, map, IfOk, OnOk};
ghost use Rattle.std.specs.Option.{option_copied};
ghost use Rattle.bound_tree.specs.Reading.{statement_of};
ghost use Rattle.expression_binding.specs.Bound.{grounded};
ghost use Rattle.tree_places.specs.Numbers.{number_of};
ghost use Rattle.tree_places.specs.PlainStmt.{stmts};
ghost use Rattle.tree_places.specs.Plain.{plain_action, plain_expr, plain_item, plain_stmt};
ghost use Rattle.statement_binding.specs.Finals.{blank_target as blank_as, with_written};
ghost use Rattle.statement_binding.specs.Writes as writes;
ghost use Rattle.statement_binding.specs.Statements.{behind};
ghost use Rattle.statement_binding.specs.Bodies as spec;

use crate::action::{bind_action, bind_assign};
use crate::finals::{blank_target, is_first_write, put_written};
use crate::locals::{Locals, bind_local};
use crate::statement::bind_stmt;
use crate::write::bind_set;
use bound_tree::Stmt;
use desk_base::{Items, OutOfMemory};
use expression_binding::Ground;
use java_tree::{Action, AssignOp, BlockItem, Expr, Stmt as Java};
use name_rules::{Note, Scope, TypeTable};

/// An assignment by `=` at the top level of a constructor, which may write a final field without
/// initializer for the first time.
fn bind_top_set<T: TypeTable>(
    site: &Ground<'_, T>,
    scope: &Scope,
    written: &mut Scope,
    target: &Expr,
    value: &Expr,
    notes: &mut Items<Note>,
) -> Result<Stmt, OutOfMemory>
    ensures made { IfOk result (λ made. statement_of made ≡ (writes.top_set (grounded (T.types site.now.types.now) site.now.class.now site.now.is_static) scope.now written.old (plain_expr (number_of site.now.places.now) target.now) (plain_expr (number_of site.now.places.now) value.now)).made) }
    ensures notes { OnOk result (notes.new ≡ notes.old ++ (writes.top_set (grounded (T.types site.now.types.now) site.now.class.now site.now.is_static) scope.now written.old (plain_expr (number_of site.now.places.now) target.now) (plain_expr (number_of site.now.places.now) value.now)).notes) }
    ensures written { OnOk result (written.new ≡ with_written written.old (blank_as (grounded (T.types site.now.types.now) site.now.class.now site.now.is_static) scope.now (plain_expr (number_of site.now.places.now) target.now))) }
{
    let name = blank_target(site, scope, target);
    let may = is_first_write(&*written, name);
    put_written(written, name)?;
    bind_set(site, scope, may, target, value, notes)
}

fn bind_top_assign<T: TypeTable>(
    site: &Ground<'_, T>,
    scope: &Scope,
    written: &mut Scope,
    op: AssignOp,
    target: &Expr,
    value: &Expr,
    notes: &mut Items<Note>,
) -> Result<Stmt, OutOfMemory>
    ensures made { IfOk result (λ made. statement_of made ≡ (writes.by_top_sign (grounded (T.types site.now.types.now) site.now.class.now site.now.is_static) scope.now written.old op (plain_expr (number_of site.now.places.now) target.now) (plain_expr (number_of site.now.places.now) value.now)).made) }
    ensures notes { OnOk result (notes.new ≡ notes.old ++ (writes.by_top_sign (grounded (T.types site.now.types.now) site.now.class.now site.now.is_static) scope.now written.old op (plain_expr (number_of site.now.places.now) target.now) (plain_expr (number_of site.now.places.now) value.now)).notes) }
    ensures written { OnOk result (written.new ≡ with_written written.old (writes.by_set op (blank_as (grounded (T.types site.now.types.now) site.now.class.now site.now.is_static) scope.now (plain_expr (number_of site.now.places.now) target.now)))) }
{
    match op {
        AssignOp::Set => bind_top_set(site, scope, written, target, value, notes),
        AssignOp::Add => bind_assign(site, scope, op, target, value, notes),
        AssignOp::Subtract => bind_assign(site, scope, op, target, value, notes),
    }
}

fn bind_top_action<T: TypeTable>(
    site: &Ground<'_, T>,
    scope: &Scope,
    written: &mut Scope,
    action: &Action,
    notes: &mut Items<Note>,
) -> Result<Stmt, OutOfMemory>
    ensures made { IfOk result (λ made. statement_of made ≡ (writes.top_action (grounded (T.types site.now.types.now) site.now.class.now site.now.is_static) scope.now written.old (plain_action (number_of site.now.places.now) action.now)).made) }
    ensures notes { OnOk result (notes.new ≡ notes.old ++ (writes.top_action (grounded (T.types site.now.types.now) site.now.class.now site.now.is_static) scope.now written.old (plain_action (number_of site.now.places.now) action.now)).notes) }
    ensures written { OnOk result (written.new ≡ with_written written.old (writes.field_written (grounded (T.types site.now.types.now) site.now.class.now site.now.is_static) scope.now (plain_action (number_of site.now.places.now) action.now))) }
{
    match action {
        Action::Assign(target, op, _, value) => {
            bind_top_assign(site, scope, written, *op, target, value, notes)
        }
        Action::StepAfter(_, _, _)
        | Action::StepBefore(_, _, _)
        | Action::Call(_)
        | Action::New(_)
        | Action::Start(_, _, _) => bind_action(site, scope, action, notes),
    }
}

/// A statement at the top level of a constructor.
#[tactic(auto, using(tree_places::proofs::PlainShapes::plain_shapes, crate::proofs::Walk::walk))]
fn bind_top_stmt<T: TypeTable>(
    site: &Ground<'_, T>,
    written: &mut Scope,
    locals: &mut Locals,
    stmt: &Java,
    notes: &mut Items<Note>,
) -> Result<Stmt, OutOfMemory>
    ensures made { IfOk result (λ made. statement_of made ≡ (spec.top_statement (grounded (T.types site.now.types.now) site.now.class.now site.now.is_static) written.old locals.old (plain_stmt (number_of site.now.places.now) stmt.now)).made) }
    ensures notes { OnOk result (notes.new ≡ notes.old ++ (spec.top_statement (grounded (T.types site.now.types.now) site.now.class.now site.now.is_static) written.old locals.old (plain_stmt (number_of site.now.places.now) stmt.now)).notes) }
    ensures written { OnOk result (written.new ≡ spec.written_behind (grounded (T.types site.now.types.now) site.now.class.now site.now.is_static) written.old locals.old.scope (plain_stmt (number_of site.now.places.now) stmt.now)) }
    ensures locals { OnOk result (locals.new ≡ behind locals.old (plain_stmt (number_of site.now.places.now) stmt.now)) }
{
    match stmt {
        Java::Action(action, _) => { bind_top_action(site, &locals.scope, written, action, notes) }
        Java::Block(_)
        | Java::Empty(_)
        | Java::If(_, _, _, _)
        | Java::While(_, _, _)
        | Java::For(_, _, _, _, _)
        | Java::Sync(_, _, _)
        | Java::Return(_, _, _) => bind_stmt(site, None, locals, stmt, notes),
    }
}

#[tactic(auto, using(tree_places::proofs::PlainShapes::plain_shapes, crate::proofs::Walk::walk))]
fn bind_top_item<T: TypeTable>(
    site: &Ground<'_, T>,
    written: &mut Scope,
    locals: &mut Locals,
    item: &BlockItem,
    notes: &mut Items<Note>,
) -> Result<Stmt, OutOfMemory>
    ensures made { IfOk result (λ made. statement_of made ≡ (spec.top_statement (grounded (T.types site.now.types.now) site.now.class.now site.now.is_static) written.old locals.old (plain_item (number_of site.now.places.now) item.now)).made) }
    ensures notes { OnOk result (notes.new ≡ notes.old ++ (spec.top_statement (grounded (T.types site.now.types.now) site.now.class.now site.now.is_static) written.old locals.old (plain_item (number_of site.now.places.now) item.now)).notes) }
    ensures written { OnOk result (written.new ≡ spec.written_behind (grounded (T.types site.now.types.now) site.now.class.now site.now.is_static) written.old locals.old.scope (plain_item (number_of site.now.places.now) item.now)) }
    ensures locals { OnOk result (locals.new ≡ behind locals.old (plain_item (number_of site.now.places.now) item.now)) }
{
    match item {
        BlockItem::Local(local, _) => bind_local(site, locals, local, notes),
        BlockItem::Stmt(stmt) => bind_top_stmt(site, written, locals, stmt, notes),
    }
}

/// The statements and declarations at the top level of a constructor.
pub(crate) fn bind_top_items<T: TypeTable>(
    site: &Ground<'_, T>,
    locals: &mut Locals,
    items: &[BlockItem],
    notes: &mut Items<Note>,
) -> Result<Items<Stmt>, OutOfMemory>
    ensures made { IfOk result (λ made. map statement_of made ≡ (spec.top_statements (grounded (T.types site.now.types.now) site.now.class.now site.now.is_static) [] locals.old (stmts (map (plain_item (number_of site.now.places.now)) items.now))).made) }
    ensures notes { OnOk result (notes.new ≡ notes.old ++ (spec.top_statements (grounded (T.types site.now.types.now) site.now.class.now site.now.is_static) [] locals.old (stmts (map (plain_item (number_of site.now.places.now)) items.now))).notes) }
{
    let mut written = Scope::new(site.alloc);
    let mut made = Items::new(site.alloc);
    for item in items {
        let stmt = bind_top_item(site, &mut written, locals, item, notes)?;
        made.push(stmt)?;
    }
    Ok(made)
}
