ghost use Rattle.std.specs.Prelude.{◌≡◌, false, get_or};
ghost use Rattle.bound_tree.specs.Claims as spec;
ghost use Rattle.bound_tree.specs.Claims.{varies_in};
ghost use Rattle.bound_tree.specs.Reading.{term_of};
ghost use Rattle.bound_tree.specs.Shown.{claim_if_any};

use crate::name::FieldName;
use crate::tree::Expr;

/// By what a monitor is named: a local that is never assigned (`this` is local 0), a lock's field of
/// such a local with the class whose it is, a lock's static field, or a class.
#[derive(Clone, Copy)]
pub enum Claim<'a> {
    Local(u32),
    Field(u32, &'a [u8], &'a [u8]),
    Static(&'a [u8], &'a [u8]),
    Class(&'a [u8]),
}

/// What the table holds at a number, false beyond its end.
pub(crate) fn is_marked(table: &[bool], number: u32) -> bool
    ensures { result ≡ get_or table.now number false }
{
    if (number as usize) < table.len() {
        return table[number as usize];
    }
    false
}

/// The local, if it is never assigned.
fn steady(local: u32, varies: &[bool]) -> Option<u32>
    ensures { result ≡ spec.steady (varies_in varies.now) local }
{
    if is_marked(varies, local) {
        None
    } else {
        Some(local)
    }
}

/// `this`, which is local 0, or the local that is never assigned, that the expression names.
/// `varies` says of each local, by its number, whether it is assigned behind its declaration.
#[tactic(auto, using(crate::proofs::Readings::readings))]
pub fn local_claim(expr: &Expr, varies: &[bool]) -> Option<u32>
    ensures { result ≡ spec.local_claim (varies_in varies.now) (term_of expr.now) }
{
    match expr {
        Expr::This(_) => Some(0),
        Expr::Local(_, local) => steady(*local, varies),
        Expr::Const(_, _)
        | Expr::Field(_, _, _)
        | Expr::Static(_, _)
        | Expr::New(_, _, _)
        | Expr::Call(_, _, _, _)
        | Expr::CallStatic(_, _, _)
        | Expr::Unknown(_, _, _)
        | Expr::UnknownField(_, _, _)
        | Expr::UnknownCall(_, _, _, _)
        | Expr::Unary(_, _, _)
        | Expr::And(_, _, _)
        | Expr::Or(_, _, _)
        | Expr::Binary(_, _, _, _) => None,
    }
}

fn field_claim<'a>(base: Option<u32>, field: &'a FieldName) -> Option<Claim<'a>>
    ensures { claim_if_any result ≡ spec.field_claim field.now.is_lock base field.now }
{
    if !field.is_lock {
        return None;
    }
    match base {
        Some(local) => Some(Claim::Field(local, field.class.as_slice(), field.name.as_slice())),
        None => None,
    }
}

fn static_claim(field: &FieldName) -> Option<Claim<'_>>
    ensures { claim_if_any result ≡ spec.static_claim field.now }
{
    if !field.is_lock {
        return None;
    }
    Some(Claim::Static(field.class.as_slice(), field.name.as_slice()))
}

fn value_claim<'a>(local: Option<u32>) -> Option<Claim<'a>>
    ensures { claim_if_any result ≡ spec.value_claim local }
{
    match local {
        Some(local) => Some(Claim::Local(local)),
        None => None,
    }
}

/// The claim by which the expression names its object, or none where it has not the form of one.
/// `varies` says of each local, by its number, whether it is assigned behind its declaration.
#[tactic(auto, using(crate::proofs::Readings::readings))]
pub fn claim_of<'a>(expr: &'a Expr, varies: &[bool]) -> Option<Claim<'a>>
    ensures { claim_if_any result ≡ spec.claim_of (varies_in varies.now) (term_of expr.now) }
{
    match expr {
        Expr::Field(_, base, field) => field_claim(local_claim(base.get(), varies), field),
        Expr::Static(_, field) => static_claim(field),
        Expr::Const(_, _)
        | Expr::This(_)
        | Expr::Local(_, _)
        | Expr::New(_, _, _)
        | Expr::Call(_, _, _, _)
        | Expr::CallStatic(_, _, _)
        | Expr::Unknown(_, _, _)
        | Expr::UnknownField(_, _, _)
        | Expr::UnknownCall(_, _, _, _)
        | Expr::Unary(_, _, _)
        | Expr::And(_, _, _)
        | Expr::Or(_, _, _)
        | Expr::Binary(_, _, _, _) => value_claim(local_claim(expr, varies)),
    }
}
