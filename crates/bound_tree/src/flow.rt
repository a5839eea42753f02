ghost use Rattle.std.specs.Prelude.{◌≡◌, OnOk};
ghost use Rattle.bound_tree.specs.Flows as spec;
ghost use Rattle.bound_tree.specs.Reading.{term_of, terms_of, statement_of, statements_of};
ghost use Rattle.bound_tree.specs.Tree.{base_of, local_of};
ghost use Rattle.bound_tree.specs.Ways.{whole};

use crate::parts::{base_of, local_of};
use crate::tree::{Expr, Stmt};
use crate::way::{Way, no_ways, put_again, put_either, put_leaving, put_naming, put_setting};
use desk_base::{Items, OutOfMemory};
use std::alloc::Global;

/// Puts what the expression does to locals before the flow.
#[cycle(expr)]
#[tactic(auto, using(crate::proofs::Readings::readings))]
pub fn put_expr(expr: &Expr, alloc: Global, flow: &mut Items<Way>) -> Result<(), OutOfMemory>
    ensures { OnOk result (whole flow.new ≡ spec.in_term (term_of expr.now) (whole flow.old)) }
{
    match expr {
        Expr::Const(_, _) | Expr::Static(_, _) => Ok(()),
        Expr::This(stamp) => put_naming(flow, 0, stamp.at),
        Expr::Local(stamp, local) => put_naming(flow, *local, stamp.at),
        Expr::Field(_, base, _) => put_expr(base.get(), alloc, flow),
        Expr::New(_, _, args) => put_exprs(args.as_slice(), alloc, flow),
        Expr::Call(_, receiver, _, args) => {
            put_exprs(args.as_slice(), alloc, flow)?;
            put_expr(receiver.get(), alloc, flow)?;
            Ok(())
        }
        Expr::CallStatic(_, _, args) => put_exprs(args.as_slice(), alloc, flow),
        Expr::Unknown(_, _, args) => put_exprs(args.as_slice(), alloc, flow),
        Expr::UnknownField(_, base, _) => put_expr(base.get(), alloc, flow),
        Expr::UnknownCall(_, receiver, _, args) => {
            put_exprs(args.as_slice(), alloc, flow)?;
            put_expr(receiver.get(), alloc, flow)?;
            Ok(())
        }
        Expr::Unary(_, _, operand) => put_expr(operand.get(), alloc, flow),
        Expr::And(_, left, right) => {
            let mut yes = no_ways(alloc);
            put_expr(right.get(), alloc, &mut yes)?;
            put_either(flow, yes, no_ways(alloc))?;
            put_expr(left.get(), alloc, flow)?;
            Ok(())
        }
        Expr::Or(_, left, right) => {
            let mut no = no_ways(alloc);
            put_expr(right.get(), alloc, &mut no)?;
            put_either(flow, no_ways(alloc), no)?;
            put_expr(left.get(), alloc, flow)?;
            Ok(())
        }
        Expr::Binary(_, _, left, right) => {
            put_expr(right.get(), alloc, flow)?;
            put_expr(left.get(), alloc, flow)?;
            Ok(())
        }
    }
}

#[cycle(expr)]
fn put_exprs(list: &[Expr], alloc: Global, flow: &mut Items<Way>) -> Result<(), OutOfMemory>
    ensures { OnOk result (whole flow.new ≡ spec.in_terms (terms_of list.now) (whole flow.old)) }
{
    let mut at = list.len();
    while at > 0 {
        at -= 1;
        put_expr(&list[at], alloc, flow)?;
    }
    Ok(())
}

/// Puts what stands before the dot of a target before the flow.
fn put_base(target: &Expr, alloc: Global, flow: &mut Items<Way>) -> Result<(), OutOfMemory>
    ensures { OnOk result (whole flow.new ≡ spec.in_any (base_of (term_of target.now)) (whole flow.old)) }
{
    match base_of(target) {
        Some(base) => put_expr(base, alloc, flow),
        None => Ok(()),
    }
}

/// Puts the naming of a target that is a local before the flow.
fn put_target_naming(target: &Expr, flow: &mut Items<Way>) -> Result<(), OutOfMemory>
    ensures { OnOk result (whole flow.new ≡ spec.local_named (local_of (term_of target.now)) (whole flow.old)) }
{
    match local_of(target) {
        Some(naming) => put_naming(flow, naming.local, naming.at),
        None => Ok(()),
    }
}

/// Puts the setting of a target that is a local before the flow.
fn put_target_setting(target: &Expr, flow: &mut Items<Way>) -> Result<(), OutOfMemory>
    ensures { OnOk result (whole flow.new ≡ spec.local_set (local_of (term_of target.now)) (whole flow.old)) }
{
    match local_of(target) {
        Some(naming) => put_setting(flow, naming.local),
        None => Ok(()),
    }
}

/// Puts what the statement does to locals before the flow.
#[cycle(stmt)]
#[tactic(auto, using(crate::proofs::Readings::readings))]
pub fn put_stmt(stmt: &Stmt, alloc: Global, flow: &mut Items<Way>) -> Result<(), OutOfMemory>
    ensures { OnOk result (whole flow.new ≡ spec.in_statement (statement_of stmt.now) (whole flow.old)) }
{
    match stmt {
        Stmt::Block(list) => put_stmts(list.as_slice(), alloc, flow),
        Stmt::Declare(_, local, _, value) => {
            put_setting(flow, *local)?;
            put_expr(value, alloc, flow)?;
            Ok(())
        }
        Stmt::Assign(target, value) => {
            put_target_setting(target, flow)?;
            put_expr(value, alloc, flow)?;
            put_base(target, alloc, flow)?;
            Ok(())
        }
        Stmt::Compound(target, _, value) => {
            put_target_setting(target, flow)?;
            put_expr(value, alloc, flow)?;
            put_target_naming(target, flow)?;
            put_base(target, alloc, flow)?;
            Ok(())
        }
        Stmt::Perform(value) => put_expr(value, alloc, flow),
        Stmt::Start(_, value) => put_expr(value, alloc, flow),
        Stmt::If(condition, yes, no) => {
            let mut first = no_ways(alloc);
            put_stmt(yes.get(), alloc, &mut first)?;
            let mut second = no_ways(alloc);
            put_stmt(no.get(), alloc, &mut second)?;
            put_either(flow, first, second)?;
            put_expr(condition, alloc, flow)?;
            Ok(())
        }
        Stmt::While(condition, body) => {
            let mut turn = no_ways(alloc);
            put_expr(condition, alloc, &mut turn)?;
            put_stmt(body.get(), alloc, &mut turn)?;
            put_again(flow, turn)?;
            put_expr(condition, alloc, flow)?;
            Ok(())
        }
        Stmt::Sync(monitor, body) => {
            put_stmt(body.get(), alloc, flow)?;
            put_expr(monitor, alloc, flow)?;
            Ok(())
        }
        Stmt::SyncClass(_, _, body) => put_stmt(body.get(), alloc, flow),
        Stmt::Return(_) => put_leaving(flow),
        Stmt::ReturnValue(_, value) => {
            put_leaving(flow)?;
            put_expr(value, alloc, flow)?;
            Ok(())
        }
    }
}

#[cycle(stmt)]
fn put_stmts(list: &[Stmt], alloc: Global, flow: &mut Items<Way>) -> Result<(), OutOfMemory>
    ensures { OnOk result (whole flow.new ≡ spec.in_statements (statements_of list.now) (whole flow.old)) }
{
    let mut at = list.len();
    while at > 0 {
        at -= 1;
        put_stmt(&list[at], alloc, flow)?;
    }
    Ok(())
}
