ghost use Rattle.std.specs.Prelude.{◌≡◌, OnOk, IfOk};
ghost use Rattle.lowering.specs.Code.{Enter};
ghost use Rattle.lowering.specs.Lower as lower;
ghost use Rattle.bound_tree.specs.Claims as claims;
ghost use Rattle.bound_tree.specs.Claims.{varies_in};
ghost use Rattle.bound_tree.specs.Tree as tree;
ghost use Rattle.bound_tree.specs.Reading.{term_of, statement_of, statements_of};

use crate::code::{NamedCode, NamedInstr};
use crate::expressions::put_expr;
use crate::instr::{NamedNote, NamedPlain};
use crate::monitor::monitor_of;
use crate::put::{
    put_class_block, put_if, put_kept_read, put_plain, put_static_read, put_static_write,
    put_while, put_write,
};
use bound_tree::{Expr, Stmt, stamp_of};
use core_model::Op;
use desk_base::OutOfMemory;
use std::alloc::Global;

/// Puts what stands before a target's dot before the code.
#[tactic(auto, using(bound_tree::proofs::Readings::readings))]
fn put_base(target: &Expr, alloc: Global, code: &mut NamedCode) -> Result<(), OutOfMemory>
    ensures { OnOk result (code.new ≡ lower.base_code (term_of target.now) code.old) }
{
    match target {
        Expr::Field(_, base, _) => put_expr(base.get(), alloc, code),
        Expr::UnknownField(_, base, _) => put_expr(base.get(), alloc, code),
        Expr::Const(_, _)
        | Expr::This(_)
        | Expr::Local(_, _)
        | Expr::Static(_, _)
        | Expr::New(_, _, _)
        | Expr::Call(_, _, _, _)
        | Expr::CallStatic(_, _, _)
        | Expr::Unknown(_, _, _)
        | Expr::UnknownCall(_, _, _, _)
        | Expr::Unary(_, _, _)
        | Expr::And(_, _, _)
        | Expr::Or(_, _, _)
        | Expr::Binary(_, _, _, _) => Ok(()),
    }
}

/// Puts the reading of a target's old value before the code; its base stays beneath.
#[tactic(auto, using(bound_tree::proofs::Readings::readings))]
fn put_old(target: &Expr, code: &mut NamedCode) -> Result<(), OutOfMemory>
    ensures { OnOk result (code.new ≡ lower.old_code (term_of target.now) code.old) }
{
    match target {
        Expr::Local(stamp, local) => put_plain(code, stamp.at, NamedPlain::Get(*local)),
        Expr::Field(stamp, _, field) => put_kept_read(code, stamp.at, field),
        Expr::Static(stamp, field) => put_static_read(code, stamp.at, field),
        Expr::Const(_, _)
        | Expr::This(_)
        | Expr::New(_, _, _)
        | Expr::Call(_, _, _, _)
        | Expr::CallStatic(_, _, _)
        | Expr::Unknown(_, _, _)
        | Expr::UnknownField(_, _, _)
        | Expr::UnknownCall(_, _, _, _)
        | Expr::Unary(_, _, _)
        | Expr::And(_, _, _)
        | Expr::Or(_, _, _)
        | Expr::Binary(_, _, _, _) => Ok(()),
    }
}

/// Puts the writing of a target before the code.
#[tactic(auto, using(bound_tree::proofs::Readings::readings))]
fn put_set(target: &Expr, code: &mut NamedCode) -> Result<(), OutOfMemory>
    ensures { OnOk result (code.new ≡ lower.set_code (term_of target.now) code.old) }
{
    match target {
        Expr::Local(stamp, local) => put_plain(code, stamp.at, NamedPlain::Set(*local)),
        Expr::Field(stamp, _, field) => put_write(code, stamp.at, field),
        Expr::Static(stamp, field) => put_static_write(code, stamp.at, field),
        Expr::Const(_, _)
        | Expr::This(_)
        | Expr::New(_, _, _)
        | Expr::Call(_, _, _, _)
        | Expr::CallStatic(_, _, _)
        | Expr::Unknown(_, _, _)
        | Expr::UnknownField(_, _, _)
        | Expr::UnknownCall(_, _, _, _)
        | Expr::Unary(_, _, _)
        | Expr::And(_, _, _)
        | Expr::Or(_, _, _)
        | Expr::Binary(_, _, _, _) => Ok(()),
    }
}

/// Whether the expression has a value.
#[tactic(auto, using(bound_tree::proofs::Readings::readings))]
fn has_value(expr: &Expr) -> bool
    ensures { result ≡ lower.has_value (term_of expr.now) }
{
    match expr {
        Expr::Call(_, _, member, _) => member.has_result,
        Expr::CallStatic(_, member, _) => member.has_result,
        Expr::Const(_, _)
        | Expr::This(_)
        | Expr::Local(_, _)
        | Expr::Field(_, _, _)
        | Expr::Static(_, _)
        | Expr::New(_, _, _)
        | Expr::Unknown(_, _, _)
        | Expr::UnknownField(_, _, _)
        | Expr::UnknownCall(_, _, _, _)
        | Expr::Unary(_, _, _)
        | Expr::And(_, _, _)
        | Expr::Or(_, _, _)
        | Expr::Binary(_, _, _, _) => true,
    }
}

/// Puts the dropping of the expression's value, if it has one, before the code.
fn put_dropped(expr: &Expr, code: &mut NamedCode) -> Result<(), OutOfMemory>
    ensures { OnOk result (code.new ≡ lower.dropped (term_of expr.now) code.old) }
{
    if has_value(expr) {
        put_plain(code, stamp_of(expr).at, NamedPlain::Drop)
    } else {
        Ok(())
    }
}

/// Puts the block of the expression's monitor before the code.
fn put_block(
    code: &mut NamedCode,
    monitor: &Expr,
    varies: &[bool],
    alloc: Global,
    block: NamedCode,
) -> Result<(), OutOfMemory>
    ensures { OnOk result (code.new ≡ Enter (lower.claimed (tree.stamp_of (term_of monitor.now)).first (claims.claim_of (varies_in varies.now) (term_of monitor.now))) block code.old) }
{
    let note = NamedNote {
        place: stamp_of(monitor).first,
        known: monitor_of(monitor, varies, alloc)?,
    };
    code.push(NamedInstr::Enter(note, block))?;
    Ok(())
}

/// Puts the code of an assignment before the code.
fn put_assigned(
    target: &Expr,
    value: &Expr,
    alloc: Global,
    code: &mut NamedCode,
) -> Result<(), OutOfMemory>
    ensures { OnOk result (code.new ≡ lower.assigned (term_of target.now) (term_of value.now) code.old) }
{
    put_set(target, code)?;
    put_expr(value, alloc, code)?;
    put_base(target, alloc, code)?;
    Ok(())
}

/// Puts the code of a compound assignment before the code.
fn put_changed(
    target: &Expr,
    op: Op,
    value: &Expr,
    alloc: Global,
    code: &mut NamedCode,
) -> Result<(), OutOfMemory>
    ensures { OnOk result (code.new ≡ lower.changed (term_of target.now) op (term_of value.now) code.old) }
{
    put_set(target, code)?;
    put_plain(code, stamp_of(target).at, NamedPlain::Op(op))?;
    put_expr(value, alloc, code)?;
    put_old(target, code)?;
    put_base(target, alloc, code)?;
    Ok(())
}

/// Puts the code of the statement before the code. `varies` says of each local, by its number,
/// whether it is assigned behind its declaration: of such a local no monitor is named by a claim.
#[cycle(stmt)]
#[tactic(auto, using(bound_tree::proofs::Readings::readings))]
pub(crate) fn put_stmt(
    stmt: &Stmt,
    varies: &[bool],
    alloc: Global,
    code: &mut NamedCode,
) -> Result<(), OutOfMemory>
    ensures { OnOk result (code.new ≡ lower.stmt (varies_in varies.now) (statement_of stmt.now) code.old) }
{
    match stmt {
        Stmt::Block(list) => put_stmts(list.as_slice(), varies, alloc, code),
        Stmt::Declare(place, local, _, value) => {
            put_plain(code, *place, NamedPlain::Set(*local))?;
            put_expr(value, alloc, code)?;
            Ok(())
        }
        Stmt::Assign(target, value) => put_assigned(target, value, alloc, code),
        Stmt::Compound(target, op, value) => put_changed(target, *op, value, alloc, code),
        Stmt::Perform(value) => {
            put_dropped(value, code)?;
            put_expr(value, alloc, code)?;
            Ok(())
        }
        Stmt::Start(place, value) => {
            put_plain(code, *place, NamedPlain::Start)?;
            put_expr(value, alloc, code)?;
            Ok(())
        }
        Stmt::If(condition, yes, no) => {
            let mut first = NamedCode::new(alloc);
            put_stmt(yes.get(), varies, alloc, &mut first)?;
            let mut second = NamedCode::new(alloc);
            put_stmt(no.get(), varies, alloc, &mut second)?;
            put_if(code, stamp_of(condition).first, first, second)?;
            put_expr(condition, alloc, code)?;
            Ok(())
        }
        Stmt::While(condition, body) => {
            let mut test = NamedCode::new(alloc);
            put_expr(condition, alloc, &mut test)?;
            let mut turn = NamedCode::new(alloc);
            put_stmt(body.get(), varies, alloc, &mut turn)?;
            put_while(code, stamp_of(condition).first, test, turn)?;
            Ok(())
        }
        Stmt::Sync(monitor, body) => {
            let mut block = NamedCode::new(alloc);
            put_stmt(body.get(), varies, alloc, &mut block)?;
            put_block(code, monitor, varies, alloc, block)?;
            put_expr(monitor, alloc, code)?;
            Ok(())
        }
        Stmt::SyncClass(place, class, body) => {
            let mut block = NamedCode::new(alloc);
            put_stmt(body.get(), varies, alloc, &mut block)?;
            put_class_block(code, *place, class, block)?;
            Ok(())
        }
        Stmt::Return(place) => put_plain(code, *place, NamedPlain::Return),
        Stmt::ReturnValue(place, value) => {
            put_plain(code, *place, NamedPlain::ReturnValue)?;
            put_expr(value, alloc, code)?;
            Ok(())
        }
    }
}

/// Puts the code of the statements, first to last, before the code.
#[cycle(stmt)]
fn put_stmts(
    list: &[Stmt],
    varies: &[bool],
    alloc: Global,
    code: &mut NamedCode,
) -> Result<(), OutOfMemory>
    ensures { OnOk result (code.new ≡ lower.stmts (varies_in varies.now) (statements_of list.now) code.old) }
{
    let mut at = list.len();
    while at > 0 {
        at -= 1;
        put_stmt(&list[at], varies, alloc, code)?;
    }
    Ok(())
}
