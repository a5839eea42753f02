ghost use Rattle.std.specs.Prelude.{◌≡◌};
ghost use Rattle.std.specs.Option.{option_copied};
ghost use Rattle.bound_tree.specs.Tree as spec;
ghost use Rattle.bound_tree.specs.Reading.{term_of, term_if_any};

use crate::tree::{Expr, Naming, Stamp};

/// What stands with the expression.
#[tactic(auto, using(crate::proofs::Readings::readings))]
pub fn stamp_of(expr: &Expr) -> &Stamp
    ensures { result.now ≡ spec.stamp_of (term_of expr.now) }
{
    match expr {
        Expr::Const(stamp, _)
        | Expr::This(stamp)
        | Expr::Local(stamp, _)
        | Expr::Field(stamp, _, _)
        | Expr::Static(stamp, _)
        | Expr::New(stamp, _, _)
        | Expr::Call(stamp, _, _, _)
        | Expr::CallStatic(stamp, _, _)
        | Expr::Unknown(stamp, _, _)
        | Expr::UnknownField(stamp, _, _)
        | Expr::UnknownCall(stamp, _, _, _)
        | Expr::Unary(stamp, _, _)
        | Expr::And(stamp, _, _)
        | Expr::Or(stamp, _, _)
        | Expr::Binary(stamp, _, _, _) => stamp,
    }
}

/// Whether the expression's value can't be used: it is faulty, or a bind finding stands at
/// parentheses around it.
pub fn is_bad(expr: &Expr) -> bool
    ensures { result ≡ spec.is_bad (term_of expr.now) }
{
    let stamp = stamp_of(expr);
    stamp.is_faulty || stamp.is_misplaced
}

/// The local that the expression names, if it is a local's name.
#[tactic(auto, using(crate::proofs::Readings::readings))]
pub fn local_of(expr: &Expr) -> Option<Naming>
    ensures { result ≡ spec.local_of (term_of expr.now) }
{
    match expr {
        Expr::Local(stamp, local) => Some(Naming {
            at: stamp.at,
            local: *local,
        }),
        Expr::Const(_, _)
        | Expr::This(_)
        | Expr::Field(_, _, _)
        | Expr::Static(_, _)
        | Expr::New(_, _, _)
        | Expr::Call(_, _, _, _)
        | Expr::CallStatic(_, _, _)
        | Expr::Unknown(_, _, _)
        | Expr::UnknownField(_, _, _)
        | Expr::UnknownCall(_, _, _, _)
        | Expr::Unary(_, _, _)
        | Expr::And(_, _, _)
        | Expr::Or(_, _, _)
        | Expr::Binary(_, _, _, _) => None,
    }
}

/// What stands before the dot, if the expression is a field behind a dot.
#[tactic(auto, using(crate::proofs::Readings::readings))]
pub fn base_of(expr: &Expr) -> Option<&Expr>
    ensures { term_if_any (option_copied result) ≡ spec.base_of (term_of expr.now) }
{
    match expr {
        Expr::Field(_, base, _) | Expr::UnknownField(_, base, _) => Some(base.get()),
        Expr::Const(_, _)
        | Expr::This(_)
        | Expr::Local(_, _)
        | Expr::Static(_, _)
        | Expr::New(_, _, _)
        | Expr::Call(_, _, _, _)
        | Expr::CallStatic(_, _, _)
        | Expr::Unknown(_, _, _)
        | Expr::UnknownCall(_, _, _, _)
        | Expr::Unary(_, _, _)
        | Expr::And(_, _, _)
        | Expr::Or(_, _, _)
        | Expr::Binary(_, _, _, _) => None,
    }
}
