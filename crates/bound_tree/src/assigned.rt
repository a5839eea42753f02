ghost use Rattle.std.specs.Prelude.{◌≡◌, ◌==◌, ◌||◌, ◌++◌, ◌<◌, ℕ, IfOk, OnOk, vec_len};
ghost use Rattle.bound_tree.specs.Claims.{assigned, assigned_all, assigned_local, among, varies_in, varies_of};
ghost use Rattle.bound_tree.specs.Reading.{term_of, statement_of, statements_of};
ghost use Rattle.bound_tree.specs.Tree.{local_of};

use crate::parts::local_of;
use crate::tree::{Expr, Stmt};
use desk_base::{Items, OutOfMemory};
use std::alloc::Global;

/// Appends the local that a target is.
#[tactic(auto, using(crate::proofs::Marking::appending))]
fn put_target(target: &Expr, locals: &mut Items<u32>) -> Result<(), OutOfMemory>
    ensures { OnOk result (locals.new ≡ locals.old ++ assigned_local (local_of (term_of target.now))) }
{
    match local_of(target) {
        Some(naming) => {
            locals.push(naming.local)?;
            Ok(())
        }
        None => Ok(()),
    }
}

/// Appends the locals that the statement assigns.
#[cycle(assigned)]
#[tactic(auto, using(crate::proofs::Readings::readings, crate::proofs::Marking::appending))]
fn put_assigned(stmt: &Stmt, locals: &mut Items<u32>) -> Result<(), OutOfMemory>
    ensures { OnOk result (locals.new ≡ locals.old ++ assigned (statement_of stmt.now)) }
{
    match stmt {
        Stmt::Block(list) => put_all_assigned(list.as_slice(), locals),
        Stmt::Assign(target, _) => put_target(target, locals),
        Stmt::Compound(target, _, _) => put_target(target, locals),
        Stmt::If(_, yes, no) => {
            put_assigned(yes.get(), locals)?;
            put_assigned(no.get(), locals)?;
            Ok(())
        }
        Stmt::While(_, body) => put_assigned(body.get(), locals),
        Stmt::Sync(_, body) => put_assigned(body.get(), locals),
        Stmt::SyncClass(_, _, body) => put_assigned(body.get(), locals),
        Stmt::Declare(_, _, _, _)
        | Stmt::Perform(_)
        | Stmt::Start(_, _)
        | Stmt::Return(_)
        | Stmt::ReturnValue(_, _) => Ok(()),
    }
}

#[cycle(assigned)]
#[tactic(auto, using(crate::proofs::Marking::appending))]
fn put_all_assigned(list: &[Stmt], locals: &mut Items<u32>) -> Result<(), OutOfMemory>
    ensures { OnOk result (locals.new ≡ locals.old ++ assigned_all (statements_of list.now)) }
{
    for stmt in list {
        put_assigned(stmt, locals)?;
    }
    Ok(())
}

/// Makes the table long enough for the number; what it holds stays.
fn lengthen(table: &mut Vec<bool>, number: usize) -> Result<(), OutOfMemory>
    ensures long { OnOk result (number < vec_len table.new) }
    ensures same { OnOk result ((x : ℕ) → varies_in table.new.items x ≡ varies_in table.old.items x) }
{
    while table.len() <= number {
        table.push(false)?;
    }
    Ok(())
}

/// Marks the local in the table.
fn mark(table: &mut Vec<bool>, local: u32) -> Result<(), OutOfMemory>
    ensures { OnOk result ((x : ℕ) → varies_in table.new.items x ≡ (varies_in table.old.items x || (x == local))) }
{
    let number = local as usize;
    lengthen(table, number)?;
    table[number] = true;
    Ok(())
}

/// The table that marks these locals.
fn table_of(locals: &[u32], alloc: Global) -> Result<Vec<bool>, OutOfMemory>
    ensures { IfOk result (λ table. (x : ℕ) → varies_in table.items x ≡ among x locals.now) }
{
    let mut table = Vec::new(alloc);
    for local in locals {
        mark(&mut table, *local)?;
    }
    Ok(table)
}

/// Which locals the code assigns behind their declaration, as a table by their numbers; a number
/// beyond its end isn't assigned.
pub fn assigned_table(block: &Stmt, alloc: Global) -> Result<Vec<bool>, OutOfMemory>
    ensures { IfOk result (λ table. (x : ℕ) → varies_in table.items x ≡ varies_of (statement_of block.now) x) }
{
    let mut locals = Items::new(alloc);
    put_assigned(block, &mut locals)?;
    table_of(locals.as_slice(), alloc)
}
