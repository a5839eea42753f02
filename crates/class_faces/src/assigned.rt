ghost use Rattle.std.specs.Prelude.{◌≡◌, ◌++◌, OnOk};
ghost use Rattle.java_tree.specs.declared.expr.Expr.{out-Expr};
ghost use Rattle.java_tree.specs.declared.stmt.Stmt.{Stmt};
ghost use Rattle.class_faces.specs.Assigned.{Puts, bare_name, by_action, by_first, by_step, block_names, item_names, stmt_names};

use desk_base::{Name, OutOfMemory};
use java_tree::{Action, Block, BlockItem, Expr, ForFirst, Stmt};
use std::collections::BTreeSet;

// Puts the name that an assignment's target is, where it is a bare name.
fn put_target(names: &mut BTreeSet<Name>, target: &Expr) -> Result<(), OutOfMemory>
    ensures { OnOk result (Puts names.old names.new (bare_name (out-Expr target.now))) }
{
    match target {
        Expr::Name(word) => {
            names.insert(word.text.clone()?)?;
            Ok(())
        }
        _ => Ok(()),
    }
}

fn put_action(names: &mut BTreeSet<Name>, action: &Action) -> Result<(), OutOfMemory>
    ensures { OnOk result (Puts names.old names.new (by_action action.now)) }
{
    match action {
        Action::Assign(target, _, _, _) => put_target(names, target),
        Action::StepAfter(target, _, _) => put_target(names, target),
        Action::StepBefore(_, _, target) => put_target(names, target),
        _ => Ok(()),
    }
}

fn put_first(names: &mut BTreeSet<Name>, first: &ForFirst) -> Result<(), OutOfMemory>
    ensures { OnOk result (Puts names.old names.new (by_first first.now)) }
{
    match first {
        ForFirst::Action(action) => put_action(names, action),
        _ => Ok(()),
    }
}

fn put_step(names: &mut BTreeSet<Name>, step: &Option<Action>) -> Result<(), OutOfMemory>
    ensures { OnOk result (Puts names.old names.new (by_step step.now)) }
{
    match step {
        Some(action) => put_action(names, action),
        None => Ok(()),
    }
}

// Puts the names that the first and the last part of a `for` assign to.
fn put_parts(
    names: &mut BTreeSet<Name>,
    first: &ForFirst,
    step: &Option<Action>,
) -> Result<(), OutOfMemory>
    ensures { OnOk result (Puts names.old names.new (by_first first.now ++ by_step step.now)) }
{
    put_first(names, first)?;
    put_step(names, step)
}

/// Puts the names that the statements of a block assign to.
#[cycle(assigned)]
pub(crate) fn put_block(names: &mut BTreeSet<Name>, block: &Block) -> Result<(), OutOfMemory>
    ensures { OnOk result (Puts names.old names.new (block_names block.now)) }
{
    for item in block.items.as_slice() {
        put_item(names, item)?;
    }
    Ok(())
}

#[cycle(assigned)]
fn put_item(names: &mut BTreeSet<Name>, item: &BlockItem) -> Result<(), OutOfMemory>
    ensures { OnOk result (Puts names.old names.new (item_names item.now)) }
{
    match item {
        BlockItem::Local(_, _) => Ok(()),
        BlockItem::Stmt(stmt) => put_stmt(names, stmt),
    }
}

#[cycle(assigned)]
fn put_stmt(names: &mut BTreeSet<Name>, stmt: &Stmt) -> Result<(), OutOfMemory>
    ensures { OnOk result (Puts names.old names.new (stmt_names stmt.now)) }
{
    match stmt {
        Stmt::Block(block) => put_block(names, block),
        Stmt::Empty(_) => Ok(()),
        Stmt::Action(action, _) => put_action(names, action),
        Stmt::If(_, _, then, None) => put_stmt(names, then.get()),
        Stmt::If(_, _, then, Some(other)) => {
            put_stmt(names, then.get())?;
            put_stmt(names, other.get())
        }
        Stmt::While(_, _, body) => put_stmt(names, body.get()),
        Stmt::For(_, first, _, step, body) => {
            put_parts(names, first, step)?;
            put_stmt(names, body.get())
        }
        Stmt::Sync(_, _, block) => put_block(names, block),
        Stmt::Return(_, _, _) => Ok(()),
    }
}
