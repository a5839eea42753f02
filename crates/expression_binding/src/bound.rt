ghost use Rattle.std.specs.Prelude.{◌≡◌, ◌++◌, map, drop, IfOk, OnOk};
ghost use Rattle.bound_tree.specs.Reading.{term_of};
ghost use Rattle.name_rules.specs.Places.{shown_place};
ghost use Rattle.tree_places.specs.PlainExpr.{exprs};
ghost use Rattle.tree_places.specs.Numbers.{number_of};
ghost use Rattle.tree_places.specs.Plain.{plain_expr};
ghost use Rattle.expression_binding.specs.Bound as spec;

use crate::before::class_before;
use crate::call::{call_behind, new_object, own_call};
use crate::field::select;
use crate::fit::{Change, in_place, is_paren, restamped, value_before};
use crate::grounds::Ground;
use crate::literal::{constant, int_value, string};
use crate::method::{called, made, maker_params, method_params};
use crate::name::{meaning_of, meant, this_at, type_before, type_word};
use crate::operator::{left_place, on_one, on_two};
use bound_tree::{Expr, Literal, UnaryOp, ValueType};
use class_faces::ParamFace;
use desk_base::{Items, OutOfMemory};
use java_tree::Expr as Java;
use name_rules::{Note, Place, Scope, TypeTable};

/// The place of an argument, by its number.
fn argument_place(params: &[ParamFace], at: usize) -> Place<'_>
    ensures { shown_place result ≡ spec.argument_place (drop at params.now) }
{
    if at < params.len() {
        Place::Of(&params[at].ty)
    } else {
        Place::Anywhere
    }
}

/// An expression whatever its place.
#[cycle(expr)]
#[tactic(auto, using(tree_places::proofs::PlainShapes::plain_shapes, crate::proofs::Walk::walk))]
fn raw<T: TypeTable>(
    expr: &Java,
    site: &Ground<'_, T>,
    scope: &Scope,
    notes: &mut Items<Note>,
) -> Result<Expr, OutOfMemory>
    ensures term { IfOk result (λ made. term_of made ≡ (spec.raw (spec.grounded (T.types site.now.types.now) site.now.class.now site.now.is_static) scope.now (plain_expr (number_of site.now.places.now) expr.now)).term) }
    ensures notes { OnOk result (notes.new ≡ notes.old ++ (spec.raw (spec.grounded (T.types site.now.types.now) site.now.class.now site.now.is_static) scope.now (plain_expr (number_of site.now.places.now) expr.now)).notes) }
{
    match expr {
        Java::Int(word) => {
            let literal = Literal::Int(int_value(word.text.as_slice()));
            Ok(constant(site.places.place(word.span), ValueType::Int, literal))
        }
        Java::Str(word) => string(site.alloc, site.places.place(word.span), &word.text),
        Java::True(at) => Ok(constant(
            site.places.place(*at),
            ValueType::Boolean,
            Literal::Boolean(true),
        )),
        Java::False(at) => Ok(constant(
            site.places.place(*at),
            ValueType::Boolean,
            Literal::Boolean(false),
        )),
        Java::Null(at) => Ok(constant(site.places.place(*at), ValueType::Null, Literal::Null)),
        Java::This(at) => this_at(site, site.places.place(*at), notes),
        Java::Name(word) => {
            let at = site.places.place(word.span);
            let meaning = meaning_of(&*site, &*scope, &word.text);
            meant(site, at, &word.text, meaning, notes)
        }
        Java::Call(name, args, _) => {
            let at = site.places.place(name.span);
            let found = called(&*site, Some(&*site.class), &name.text, args.len(), notes)?;
            let args = raw_all(args.as_slice(), site, scope, method_params(&found), notes)?;
            own_call(site, at, &name.text, found, args, notes)
        }
        Java::New(at, name, args, _) => {
            let at = site.places.place(*at);
            let named = site.places.place(name.span);
            let maker = made(&*site, &name.text, args.len(), notes)?;
            let bound = raw_all(args.as_slice(), site, scope, maker_params(maker), notes)?;
            new_object(
                &*site.types,
                at,
                named,
                &name.text,
                args.len(),
                bound,
                notes,
            )
        }
        Java::Paren(opening, inside, _) => {
            let inside = raw(inside.get(), site, scope, notes)?;
            let first = site.places.place(*opening);
            Ok(restamped(Change::From(first), inside))
        }
        Java::Select(from, name) => {
            let at = site.places.place(name.span);
            match type_word(site, scope, from.get()) {
                Some(word) => {
                    let first = site.places.place(word.span);
                    let before = type_before(site, first, &word.text, notes)?;
                    select(site, before, at, &name.text, notes)
                }
                None => {
                    let value = raw(from.get(), site, scope, notes)?;
                    let before = value_before(site, from.get(), value, notes)?;
                    select(site, before, at, &name.text, notes)
                }
            }
        }
        Java::CallOn(from, name, args, _) => {
            let at = site.places.place(name.span);
            match type_word(site, scope, from.get()) {
                Some(word) => {
                    let first = site.places.place(word.span);
                    let before = type_before(site, first, &word.text, notes)?;
                    let found = called(
                        &*site,
                        class_before(&before),
                        &name.text,
                        args.len(),
                        notes,
                    )?;
                    let args = raw_all(args.as_slice(), site, scope, method_params(&found), notes)?;
                    call_behind(site, before, at, &name.text, found, args, notes)
                }
                None => {
                    let value = raw(from.get(), site, scope, notes)?;
                    let before = value_before(site, from.get(), value, notes)?;
                    let found = called(
                        &*site,
                        class_before(&before),
                        &name.text,
                        args.len(),
                        notes,
                    )?;
                    let args = raw_all(args.as_slice(), site, scope, method_params(&found), notes)?;
                    call_behind(site, before, at, &name.text, found, args, notes)
                }
            }
        }
        Java::Not(at, operand) => {
            let value = raw(operand.get(), site, scope, notes)?;
            let value = in_place(site, &Place::Boolean, operand.get(), value, notes)?;
            on_one(site.alloc, UnaryOp::Not, site.places.place(*at), value)
        }
        Java::Neg(at, operand) => {
            let value = raw(operand.get(), site, scope, notes)?;
            let value = in_place(site, &Place::Int, operand.get(), value, notes)?;
            on_one(site.alloc, UnaryOp::Negate, site.places.place(*at), value)
        }
        Java::Binary(left, op, at, right) => {
            let first = raw(left.get(), site, scope, notes)?;
            let first = in_place(site, &left_place(*op), left.get(), first, notes)?;
            let second = raw(right.get(), site, scope, notes)?;
            on_two(
                site,
                *op,
                site.places.place(*at),
                first,
                is_paren(right.get()),
                second,
                notes,
            )
        }
    }
}

/// Arguments, each in the place of its parameter.
#[cycle(expr)]
fn raw_all<T: TypeTable>(
    list: &[Java],
    site: &Ground<'_, T>,
    scope: &Scope,
    params: &[ParamFace],
    notes: &mut Items<Note>,
) -> Result<Items<Expr>, OutOfMemory>
    ensures terms { IfOk result (λ made. map term_of made ≡ (spec.raw_all (spec.grounded (T.types site.now.types.now) site.now.class.now site.now.is_static) scope.now params.now (exprs (map (plain_expr (number_of site.now.places.now)) list.now))).terms) }
    ensures notes { OnOk result (notes.new ≡ notes.old ++ (spec.raw_all (spec.grounded (T.types site.now.types.now) site.now.class.now site.now.is_static) scope.now params.now (exprs (map (plain_expr (number_of site.now.places.now)) list.now))).notes) }
{
    let mut made = Items::new(site.alloc);
    for (at, arg) in list.iter().enumerate() {
        let value = raw(arg, site, scope, notes)?;
        let value = in_place(site, &argument_place(params, at), arg, value, notes)?;
        made.push(value)?;
    }
    Ok(made)
}

/// The expression with what its names name and with its types, in a place. What is found and consulted
/// is put behind the notes.
pub fn bind_expr<T: TypeTable>(
    site: &Ground<'_, T>,
    scope: &Scope,
    place: &Place<'_>,
    expr: &Java,
    notes: &mut Items<Note>,
) -> Result<Expr, OutOfMemory>
    ensures term { IfOk result (λ made. term_of made ≡ (spec.fitted (spec.grounded (T.types site.now.types.now) site.now.class.now site.now.is_static) scope.now (shown_place place.now) (plain_expr (number_of site.now.places.now) expr.now)).term) }
    ensures notes { OnOk result (notes.new ≡ notes.old ++ (spec.fitted (spec.grounded (T.types site.now.types.now) site.now.class.now site.now.is_static) scope.now (shown_place place.now) (plain_expr (number_of site.now.places.now) expr.now)).notes) }
{
    let value = raw(expr, site, scope, notes)?;
    in_place(site, place, expr, value, notes)
}
