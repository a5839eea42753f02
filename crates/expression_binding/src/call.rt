ghost use Rattle.std.specs.Prelude.{◌≡◌, ◌++◌, map, IfOk, OnOk, Some, None, false};
ghost use Rattle.std.specs.Option.{option_copied};
ghost use Rattle.bound_tree.specs.Tree as t;
ghost use Rattle.bound_tree.specs.Reading.{term_of, terms_of};
ghost use Rattle.name_rules.specs.Notes.{found_if};
ghost use Rattle.expression_binding.specs.Before.{shown_before};
ghost use Rattle.expression_binding.specs.Methods.{shown_method, shown_found};
ghost use Rattle.expression_binding.specs.Bound as spec;

use crate::before::{Before, first_of, is_lost, is_misuse};
use crate::field::is_out_of_place;
use crate::fit::any_bad;
use crate::grounds::Ground;
use crate::method::{NamedMethod, is_made};
use crate::name::this_of;
use crate::stamp::{faulty, unless_bad, used};
use bound_tree::{Expr, MemberName, Stamp, ValueType};
use class_faces::FaceTy;
use desk_base::{Boxed, Items, Name, OutOfMemory};
use name_rules::{Note, TypeTable, Use, is_known_name, put_finding_if, put_use, use_of};
use result_records::FindingCode;
use std::alloc::Global;

/// How a method is used. With an argument that is bad nothing more is found.
fn call_use<T: TypeTable>(types: &T, args: &[Expr], misused: bool, given: Option<&FaceTy>) -> Use
    ensures { result ≡ spec.call_use (T.types types.now) (map term_of args.now) misused (option_copied given.entry) }
{
    if any_bad(args) {
        Use::Unjudged
    } else {
        use_of(types, misused, given)
    }
}

/// Puts the finding of a name without meaning, unless something before it or in it is bad.
fn put_unfound(
    notes: &mut Items<Note>,
    lost: bool,
    args: &[Expr],
    code: FindingCode,
    at: u32,
) -> Result<(), OutOfMemory>
    ensures { OnOk result (notes.new ≡ notes.old ++ spec.unfound lost (map term_of args.now) code at) }
{
    if lost || any_bad(args) {
        return Ok(());
    }
    put_finding_if(notes, true, code, at)
}

/// A call or `new` by a name that names nothing.
#[tactic(auto, using(bound_tree::proofs::Readings::readings))]
fn unknown_call(name: &Name, args: Items<Expr>, stamp: Stamp) -> Result<Expr, OutOfMemory>
    ensures { IfOk result (λ made. term_of made ≡ t.Unknown stamp name.now (terms_of args)) }
{
    Ok(Expr::Unknown(stamp, name.clone()?, args))
}

// ---- by a bare name

#[tactic(auto, using(bound_tree::proofs::Readings::readings))]
fn instance_call(
    alloc: Global,
    class: &Name,
    at: u32,
    named: MemberName,
    args: Items<Expr>,
    stamp: Stamp,
) -> Result<Expr, OutOfMemory>
    ensures { IfOk result (λ made. term_of made ≡ t.Call stamp (spec.this_of class.now at) named (terms_of args)) }
{
    let this = Boxed::new(alloc, this_of(class, at)?)?;
    Ok(Expr::Call(stamp, this, named, args))
}

#[tactic(auto, using(bound_tree::proofs::Readings::readings))]
fn own_call_term<T: TypeTable>(
    site: &Ground<'_, T>,
    at: u32,
    method: NamedMethod<'_>,
    args: Items<Expr>,
    stamp: Stamp,
) -> Result<Expr, OutOfMemory>
    ensures { IfOk result (λ made. term_of made ≡ spec.own_call_term (spec.grounded (T.types site.now.types.now) site.now.class.now site.now.is_static) at (shown_method method.entry) (map term_of args) stamp) }
{
    if method.is_static || site.is_static {
        return Ok(Expr::CallStatic(stamp, method.named, args));
    }
    instance_call(site.alloc, site.class, at, method.named, args, stamp)
}

fn own_call_by<T: TypeTable>(
    site: &Ground<'_, T>,
    at: u32,
    method: NamedMethod<'_>,
    args: Items<Expr>,
    notes: &mut Items<Note>,
) -> Result<Expr, OutOfMemory>
    ensures term { IfOk result (λ made. term_of made ≡ spec.own_method_term (spec.grounded (T.types site.now.types.now) site.now.class.now site.now.is_static) at (shown_method method.entry) (map term_of args)) }
    ensures notes { OnOk result (notes.new ≡ notes.old ++ spec.own_method_notes (spec.grounded (T.types site.now.types.now) site.now.class.now site.now.is_static) at (shown_method method.entry) (map term_of args)) }
{
    let misused = is_out_of_place(site.is_static, method.is_static);
    let found = call_use(site.types, args.as_slice(), misused, method.result);
    put_use(notes, at, found)?;
    let stamp = used(at, at, method.result, found)?;
    own_call_term(site, at, method, args, stamp)
}

/// A call by a bare name, with its arguments in their places.
pub(crate) fn own_call<T: TypeTable>(
    site: &Ground<'_, T>,
    at: u32,
    name: &Name,
    found: Option<NamedMethod<'_>>,
    args: Items<Expr>,
    notes: &mut Items<Note>,
) -> Result<Expr, OutOfMemory>
    ensures term { IfOk result (λ made. term_of made ≡ spec.own_call_made (spec.grounded (T.types site.now.types.now) site.now.class.now site.now.is_static) at name.now (shown_found found.entry) (map term_of args)) }
    ensures notes { OnOk result (notes.new ≡ notes.old ++ spec.own_call_notes (spec.grounded (T.types site.now.types.now) site.now.class.now site.now.is_static) at (shown_found found.entry) (map term_of args)) }
{
    match found {
        Some(method) => own_call_by(site, at, method, args, notes),
        None => {
            put_unfound(
                notes,
                false,
                args.as_slice(),
                FindingCode::UnknownMember,
                at,
            )?;
            unknown_call(name, args, faulty(at, at))
        }
    }
}

// ---- behind a dot

#[tactic(auto, using(bound_tree::proofs::Readings::readings))]
fn method_term(
    alloc: Global,
    before: Before<'_>,
    named: MemberName,
    args: Items<Expr>,
    stamp: Stamp,
) -> Result<Expr, OutOfMemory>
    ensures { IfOk result (λ made. term_of made ≡ spec.method_term (shown_before before.entry) named (map term_of args) stamp) }
{
    match before {
        Before::OnType(_, _) => Ok(Expr::CallStatic(stamp, named, args)),
        Before::OnValue(value) => {
            let receiver = Boxed::new(alloc, value)?;
            Ok(Expr::Call(stamp, receiver, named, args))
        }
    }
}

fn method_behind<T: TypeTable>(
    site: &Ground<'_, T>,
    before: Before<'_>,
    at: u32,
    method: NamedMethod<'_>,
    args: Items<Expr>,
    notes: &mut Items<Note>,
) -> Result<Expr, OutOfMemory>
    ensures term { IfOk result (λ made. term_of made ≡ spec.method_behind_term (T.types site.now.types.now) (shown_before before.entry) at (shown_method method.entry) (map term_of args)) }
    ensures notes { OnOk result (notes.new ≡ notes.old ++ spec.method_behind_notes (T.types site.now.types.now) (shown_before before.entry) at (shown_method method.entry) (map term_of args)) }
{
    let misused = is_misuse(&before, method.is_static);
    let found = call_use(site.types, args.as_slice(), misused, method.result);
    put_use(notes, at, found)?;
    let stamp = used(at, first_of(&before), method.result, found)?;
    method_term(site.alloc, before, method.named, args, stamp)
}

#[tactic(auto, using(bound_tree::proofs::Readings::readings))]
fn lost_call(
    alloc: Global,
    value: Expr,
    name: &Name,
    args: Items<Expr>,
    stamp: Stamp,
) -> Result<Expr, OutOfMemory>
    ensures { IfOk result (λ made. term_of made ≡ t.UnknownCall stamp (term_of value) name.now (terms_of args)) }
{
    let receiver = Boxed::new(alloc, value)?;
    Ok(Expr::UnknownCall(stamp, receiver, name.clone()?, args))
}

fn no_method_term(
    alloc: Global,
    before: Before<'_>,
    name: &Name,
    args: Items<Expr>,
    stamp: Stamp,
) -> Result<Expr, OutOfMemory>
    ensures { IfOk result (λ made. term_of made ≡ spec.no_method_term (shown_before before.entry) name.now (map term_of args) stamp) }
{
    match before {
        Before::OnType(_, _) => unknown_call(name, args, stamp),
        Before::OnValue(value) => lost_call(alloc, value, name, args, stamp),
    }
}

fn no_method(
    alloc: Global,
    before: Before<'_>,
    at: u32,
    name: &Name,
    args: Items<Expr>,
    notes: &mut Items<Note>,
) -> Result<Expr, OutOfMemory>
    ensures term { IfOk result (λ made. term_of made ≡ spec.no_method_behind (shown_before before.entry) at name.now (map term_of args)) }
    ensures notes { OnOk result (notes.new ≡ notes.old ++ spec.no_method_notes (shown_before before.entry) at (map term_of args)) }
{
    put_unfound(
        notes,
        is_lost(&before),
        args.as_slice(),
        FindingCode::UnknownMember,
        at,
    )?;
    let stamp = faulty(at, first_of(&before));
    no_method_term(alloc, before, name, args, stamp)
}

/// A call behind a dot, with its arguments in their places.
pub(crate) fn call_behind<T: TypeTable>(
    site: &Ground<'_, T>,
    before: Before<'_>,
    at: u32,
    name: &Name,
    found: Option<NamedMethod<'_>>,
    args: Items<Expr>,
    notes: &mut Items<Note>,
) -> Result<Expr, OutOfMemory>
    ensures term { IfOk result (λ made. term_of made ≡ spec.call_made (T.types site.now.types.now) (shown_before before.entry) at name.now (shown_found found.entry) (map term_of args)) }
    ensures notes { OnOk result (notes.new ≡ notes.old ++ spec.call_notes (T.types site.now.types.now) (shown_before before.entry) at (shown_found found.entry) (map term_of args)) }
{
    match found {
        Some(method) => method_behind(site, before, at, method, args, notes),
        None => no_method(site.alloc, before, at, name, args, notes),
    }
}

// ---- `new`

#[tactic(auto, using(bound_tree::proofs::Readings::readings))]
fn object(at: u32, class: &Name, args: Items<Expr>) -> Result<Expr, OutOfMemory>
    ensures { IfOk result (λ made. term_of made ≡ spec.object_term at class.now (map term_of args)) }
{
    let ty = ValueType::Named(class.clone()?);
    let stamp = unless_bad(any_bad(args.as_slice()), at, at, ty);
    Ok(Expr::New(stamp, class.clone()?, args))
}

fn no_object(
    code: FindingCode,
    at: u32,
    named: u32,
    class: &Name,
    args: Items<Expr>,
    notes: &mut Items<Note>,
) -> Result<Expr, OutOfMemory>
    ensures term { IfOk result (λ made. term_of made ≡ spec.no_object_term at class.now (map term_of args)) }
    ensures notes { OnOk result (notes.new ≡ notes.old ++ spec.unfound false (map term_of args) code named) }
{
    put_unfound(notes, false, args.as_slice(), code, named)?;
    unknown_call(class, args, faulty(at, at))
}

/// A `new`, with its arguments in their places.
pub(crate) fn new_object<T: TypeTable>(
    types: &T,
    at: u32,
    named: u32,
    class: &Name,
    count: usize,
    args: Items<Expr>,
    notes: &mut Items<Note>,
) -> Result<Expr, OutOfMemory>
    ensures term { IfOk result (λ made. term_of made ≡ spec.new_term (T.types types.now) at class.now count (map term_of args)) }
    ensures notes { OnOk result (notes.new ≡ notes.old ++ spec.new_notes (T.types types.now) named class.now count (map term_of args)) }
{
    if !is_known_name(types, class) {
        return no_object(FindingCode::UnknownType, at, named, class, args, notes);
    }
    if !is_made(types, class, count) {
        return no_object(FindingCode::UnknownMember, at, named, class, args, notes);
    }
    object(at, class, args)
}
