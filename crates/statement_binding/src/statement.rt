ghost use Rattle.std.specs.Prelude.{◌≡◌, ◌++◌, map, IfOk, OnOk};
ghost use Rattle.std.specs.Option.{option_copied, option_map};
ghost use Rattle.bound_tree.specs.Reading.{statement_of};
ghost use Rattle.expression_binding.specs.Bound.{grounded};
ghost use Rattle.tree_places.specs.Numbers.{number_of};
ghost use Rattle.tree_places.specs.PlainStmt.{stmts, otherwise};
ghost use Rattle.tree_places.specs.Plain.{plain_block, plain_item, plain_stmt};
ghost use Rattle.statement_binding.specs.Statements as spec;

use crate::action::bind_action;
use crate::head::{bind_condition, bind_monitor, bind_return, choice, locked, repeat};
use crate::locals::{Locals, bind_local};
use crate::parts::{bind_first, bind_last, bind_test, block as block_of, looped, nothing};
use bound_tree::Stmt;
use class_faces::FaceTy;
use desk_base::{Boxed, Items, OutOfMemory};
use expression_binding::Ground;
use java_tree::{Block, BlockItem, Stmt as Java};
use name_rules::{Note, TypeTable};

/// A statement, in a body that gives a value of the declared type, or nothing.
#[cycle(stmt)]
#[tactic(auto, using(tree_places::proofs::PlainShapes::plain_shapes, crate::proofs::Walk::walk))]
pub(crate) fn bind_stmt<T: TypeTable>(
    site: &Ground<'_, T>,
    given: Option<&FaceTy>,
    locals: &mut Locals,
    stmt: &Java,
    notes: &mut Items<Note>,
) -> Result<Stmt, OutOfMemory>
    ensures made { IfOk result (λ made. statement_of made ≡ (spec.statement (grounded (T.types site.now.types.now) site.now.class.now site.now.is_static) (option_copied given.entry) locals.old (plain_stmt (number_of site.now.places.now) stmt.now)).made) }
    ensures notes { OnOk result (notes.new ≡ notes.old ++ (spec.statement (grounded (T.types site.now.types.now) site.now.class.now site.now.is_static) (option_copied given.entry) locals.old (plain_stmt (number_of site.now.places.now) stmt.now)).notes) }
    ensures locals { OnOk result (locals.new ≡ spec.behind locals.old (plain_stmt (number_of site.now.places.now) stmt.now)) }
{
    match stmt {
        Java::Block(block) => bind_block(site, given, locals, block, notes),
        Java::Empty(_) => Ok(nothing(site.alloc)),
        Java::Action(action, _) => bind_action(site, &locals.scope, action, notes),
        Java::If(_, test, yes, no) => {
            let test = bind_condition(site, &locals.scope, test, notes)?;
            let yes = bind_stmt(site, given, locals, yes.get(), notes)?;
            let no = bind_other(site, given, locals, no, notes)?;
            choice(site.alloc, test, yes, no)
        }
        Java::While(_, test, body) => {
            let test = bind_condition(site, &locals.scope, test, notes)?;
            let body = bind_stmt(site, given, locals, body.get(), notes)?;
            repeat(site.alloc, test, body)
        }
        Java::For(word, first, test, last, body) => {
            let outside = locals.scope.len();
            let first = bind_first(site, locals, first, notes)?;
            let at = site.places.place(*word);
            let test = bind_test(site, &locals.scope, at, test, notes)?;
            let body = bind_stmt(site, given, locals, body.get(), notes)?;
            let body = bind_last(site, &locals.scope, body, last, notes)?;
            locals.scope.cut(outside);
            looped(site.alloc, first, test, body)
        }
        Java::Sync(_, monitor, block) => {
            let held = bind_monitor(site, &locals.scope, monitor, notes)?;
            let body = bind_block(site, given, locals, block, notes)?;
            locked(site.alloc, held, body)
        }
        Java::Return(word, value, _) => {
            let at = site.places.place(*word);
            bind_return(site, given, &locals.scope, at, value, notes)
        }
    }
}

/// What stands behind an `else`, if something does.
#[cycle(stmt)]
#[tactic(auto, using(crate::proofs::Walk::walk))]
fn bind_other<T: TypeTable>(
    site: &Ground<'_, T>,
    given: Option<&FaceTy>,
    locals: &mut Locals,
    other: &Option<Boxed<Java>>,
    notes: &mut Items<Note>,
) -> Result<Stmt, OutOfMemory>
    ensures made { IfOk result (λ made. statement_of made ≡ (spec.branch (grounded (T.types site.now.types.now) site.now.class.now site.now.is_static) (option_copied given.entry) locals.old (otherwise (option_map (plain_stmt (number_of site.now.places.now)) other.now))).made) }
    ensures notes { OnOk result (notes.new ≡ notes.old ++ (spec.branch (grounded (T.types site.now.types.now) site.now.class.now site.now.is_static) (option_copied given.entry) locals.old (otherwise (option_map (plain_stmt (number_of site.now.places.now)) other.now))).notes) }
    ensures locals { OnOk result (locals.new ≡ spec.behind_all locals.old (otherwise (option_map (plain_stmt (number_of site.now.places.now)) other.now))) }
{
    match other {
        Some(stmt) => bind_stmt(site, given, locals, stmt.get(), notes),
        None => Ok(nothing(site.alloc)),
    }
}

/// The declaration of a local, which stays in scope, or a statement.
#[cycle(stmt)]
#[tactic(auto, using(tree_places::proofs::PlainShapes::plain_shapes, crate::proofs::Walk::walk))]
pub(crate) fn bind_item<T: TypeTable>(
    site: &Ground<'_, T>,
    given: Option<&FaceTy>,
    locals: &mut Locals,
    item: &BlockItem,
    notes: &mut Items<Note>,
) -> Result<Stmt, OutOfMemory>
    ensures made { IfOk result (λ made. statement_of made ≡ (spec.statement (grounded (T.types site.now.types.now) site.now.class.now site.now.is_static) (option_copied given.entry) locals.old (plain_item (number_of site.now.places.now) item.now)).made) }
    ensures notes { OnOk result (notes.new ≡ notes.old ++ (spec.statement (grounded (T.types site.now.types.now) site.now.class.now site.now.is_static) (option_copied given.entry) locals.old (plain_item (number_of site.now.places.now) item.now)).notes) }
    ensures locals { OnOk result (locals.new ≡ spec.behind locals.old (plain_item (number_of site.now.places.now) item.now)) }
{
    match item {
        BlockItem::Local(local, _) => bind_local(site, locals, local, notes),
        BlockItem::Stmt(stmt) => bind_stmt(site, given, locals, stmt, notes),
    }
}

/// Statements and declarations, one after another.
#[cycle(stmt)]
pub(crate) fn bind_items<T: TypeTable>(
    site: &Ground<'_, T>,
    given: Option<&FaceTy>,
    locals: &mut Locals,
    items: &[BlockItem],
    notes: &mut Items<Note>,
) -> Result<Items<Stmt>, OutOfMemory>
    ensures made { IfOk result (λ made. map statement_of made ≡ (spec.statements (grounded (T.types site.now.types.now) site.now.class.now site.now.is_static) (option_copied given.entry) locals.old (stmts (map (plain_item (number_of site.now.places.now)) items.now))).made) }
    ensures notes { OnOk result (notes.new ≡ notes.old ++ (spec.statements (grounded (T.types site.now.types.now) site.now.class.now site.now.is_static) (option_copied given.entry) locals.old (stmts (map (plain_item (number_of site.now.places.now)) items.now))).notes) }
    ensures locals { OnOk result (locals.new ≡ spec.behind_all locals.old (stmts (map (plain_item (number_of site.now.places.now)) items.now))) }
{
    let mut made = Items::new(site.alloc);
    for item in items {
        let stmt = bind_item(site, given, locals, item, notes)?;
        made.push(stmt)?;
    }
    Ok(made)
}

/// A block, whose locals are out of scope behind it.
#[cycle(stmt)]
#[tactic(auto, using(crate::proofs::Blocks::blocks))]
fn bind_block<T: TypeTable>(
    site: &Ground<'_, T>,
    given: Option<&FaceTy>,
    locals: &mut Locals,
    block: &Block,
    notes: &mut Items<Note>,
) -> Result<Stmt, OutOfMemory>
    ensures made { IfOk result (λ made. statement_of made ≡ (spec.statement (grounded (T.types site.now.types.now) site.now.class.now site.now.is_static) (option_copied given.entry) locals.old (plain_block (number_of site.now.places.now) block.now)).made) }
    ensures notes { OnOk result (notes.new ≡ notes.old ++ (spec.statement (grounded (T.types site.now.types.now) site.now.class.now site.now.is_static) (option_copied given.entry) locals.old (plain_block (number_of site.now.places.now) block.now)).notes) }
    ensures locals { OnOk result (locals.new ≡ spec.behind locals.old (plain_block (number_of site.now.places.now) block.now)) }
{
    let outside = locals.scope.len();
    let made = bind_items(site, given, locals, block.items.as_slice(), notes)?;
    locals.scope.cut(outside);
    Ok(block_of(made))
}
