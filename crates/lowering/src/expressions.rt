ghost use Rattle.std.specs.Prelude.{◌≡◌, OnOk, IfOk};
ghost use Rattle.lowering.specs.Lower as lower;
ghost use Rattle.bound_tree.specs.Reading.{term_of, terms_of};

use crate::code::NamedCode;
use crate::instr::{Constant, NamedPlain};
use crate::put::{
    LEAST, put_and, put_call, put_constant, put_literal, put_make, put_or, put_plain, put_read,
    put_static_call, put_static_read,
};
use bound_tree::{Expr, Literal, UnaryOp};
use desk_base::OutOfMemory;
use std::alloc::Global;

/// How many arguments there are. More than an instruction can count are told as want of memory.
#[tactic(auto, using(crate::proofs::Readings::counted))]
fn count_of(list: &[Expr]) -> Result<u32, OutOfMemory>
    ensures { IfOk result (λ count. count ≡ lower.count (terms_of list.now)) }
{
    let count = list.len();
    if count > u32::MAX as usize {
        return Err(OutOfMemory);
    }
    Ok(count as u32)
}

fn is_over(literal: &Literal) -> bool
    ensures { result ≡ lower.is_over literal.now }
{
    match literal {
        Literal::Int(number) => *number == 2147483648,
        Literal::Boolean(_) | Literal::Null | Literal::Str(_) => false,
    }
}

/// Whether it is the literal 2147483648.
#[tactic(auto, using(bound_tree::proofs::Readings::readings))]
fn is_over_all(expr: &Expr) -> bool
    ensures { result ≡ lower.is_over_all (term_of expr.now) }
{
    match expr {
        Expr::Const(_, literal) => is_over(literal),
        Expr::This(_)
        | Expr::Local(_, _)
        | Expr::Field(_, _, _)
        | Expr::Static(_, _)
        | Expr::New(_, _, _)
        | Expr::Call(_, _, _, _)
        | Expr::CallStatic(_, _, _)
        | Expr::Unknown(_, _, _)
        | Expr::UnknownField(_, _, _)
        | Expr::UnknownCall(_, _, _, _)
        | Expr::Unary(_, _, _)
        | Expr::And(_, _, _)
        | Expr::Or(_, _, _)
        | Expr::Binary(_, _, _, _) => false,
    }
}

/// Whether the operator and its operand are the least int.
fn is_least(op: UnaryOp, operand: &Expr) -> bool
    ensures { result ≡ lower.is_least op (term_of operand.now) }
{
    match op {
        UnaryOp::Not => false,
        UnaryOp::Negate => is_over_all(operand),
    }
}

fn sign_of(op: UnaryOp) -> NamedPlain
    ensures { result ≡ lower.sign op }
{
    match op {
        UnaryOp::Not => NamedPlain::Not,
        UnaryOp::Negate => NamedPlain::Neg,
    }
}

/// Puts the code of the expression before the code.
#[cycle(expr)]
#[tactic(auto, using(bound_tree::proofs::Readings::readings))]
pub(crate) fn put_expr(expr: &Expr, alloc: Global, code: &mut NamedCode) -> Result<(), OutOfMemory>
    ensures { OnOk result (code.new ≡ lower.expr (term_of expr.now) code.old) }
{
    match expr {
        Expr::Const(stamp, literal) => put_literal(code, stamp.at, literal),
        Expr::This(stamp) => put_plain(code, stamp.at, NamedPlain::Get(0)),
        Expr::Local(stamp, local) => put_plain(code, stamp.at, NamedPlain::Get(*local)),
        Expr::Field(stamp, base, field) => {
            put_read(code, stamp.at, field)?;
            put_expr(base.get(), alloc, code)?;
            Ok(())
        }
        Expr::Static(stamp, field) => put_static_read(code, stamp.at, field),
        Expr::New(stamp, class, args) => {
            let count = count_of(args.as_slice())?;
            put_make(code, stamp.at, class, count)?;
            put_exprs(args.as_slice(), alloc, code)?;
            Ok(())
        }
        Expr::Call(stamp, receiver, member, args) => {
            let count = count_of(args.as_slice())?;
            put_call(code, stamp.at, member, count)?;
            put_exprs(args.as_slice(), alloc, code)?;
            put_expr(receiver.get(), alloc, code)?;
            Ok(())
        }
        Expr::CallStatic(stamp, member, args) => {
            let count = count_of(args.as_slice())?;
            put_static_call(code, stamp.at, member, count)?;
            put_exprs(args.as_slice(), alloc, code)?;
            Ok(())
        }
        Expr::Unknown(_, _, args) => put_exprs(args.as_slice(), alloc, code),
        Expr::UnknownField(_, base, _) => put_expr(base.get(), alloc, code),
        Expr::UnknownCall(_, receiver, _, args) => {
            put_exprs(args.as_slice(), alloc, code)?;
            put_expr(receiver.get(), alloc, code)?;
            Ok(())
        }
        Expr::Unary(stamp, op, operand) => {
            if is_least(*op, operand.get()) {
                return put_constant(code, stamp.at, Constant::Int(LEAST));
            }
            put_plain(code, stamp.at, sign_of(*op))?;
            put_expr(operand.get(), alloc, code)?;
            Ok(())
        }
        Expr::And(stamp, left, right) => {
            let mut yes = NamedCode::new(alloc);
            put_expr(right.get(), alloc, &mut yes)?;
            put_and(code, stamp.at, alloc, yes)?;
            put_expr(left.get(), alloc, code)?;
            Ok(())
        }
        Expr::Or(stamp, left, right) => {
            let mut no = NamedCode::new(alloc);
            put_expr(right.get(), alloc, &mut no)?;
            put_or(code, stamp.at, alloc, no)?;
            put_expr(left.get(), alloc, code)?;
            Ok(())
        }
        Expr::Binary(stamp, op, left, right) => {
            put_plain(code, stamp.at, NamedPlain::Op(*op))?;
            put_expr(right.get(), alloc, code)?;
            put_expr(left.get(), alloc, code)?;
            Ok(())
        }
    }
}

/// Puts the code of the expressions, first to last, before the code.
#[cycle(expr)]
fn put_exprs(list: &[Expr], alloc: Global, code: &mut NamedCode) -> Result<(), OutOfMemory>
    ensures { OnOk result (code.new ≡ lower.exprs (terms_of list.now) code.old) }
{
    let mut at = list.len();
    while at > 0 {
        at -= 1;
        put_expr(&list[at], alloc, code)?;
    }
    Ok(())
}
