ghost use Rattle.std.specs.Prelude.{◌≡◌, ℕ, ◌++◌, IfOk, OnOk};
ghost use Rattle.std.specs.Option.{option_copied};
ghost use Rattle.desk_base.specs.declared.span.Span.{Span};
ghost use Rattle.bound_tree.specs.Tree as t;
ghost use Rattle.bound_tree.specs.Reading.{term_of};
ghost use Rattle.name_rules.specs.Scopes.{shown};
ghost use Rattle.tree_places.specs.Numbers.{number_of};
ghost use Rattle.tree_places.specs.Plain.{plain_expr, plain_lexeme};
ghost use Rattle.expression_binding.specs.Bound as spec;
ghost use Rattle.expression_binding.specs.Before.{shown_before};
ghost use Rattle.expression_binding.specs.Words.{word_as};

use crate::before::Before;
use crate::field::own_field;
use crate::grounds::Ground;
use crate::stamp::{faulty, sound, used};
use bound_tree::{Expr, Stamp, ValueType};
use desk_base::{Items, Name, OutOfMemory};
use java_tree::Lexeme;
use name_rules::{
    Meaning, Note, Scope, TypeTable, Variable, is_known_name, put_finding, put_name, put_type,
    use_of,
};
use result_records::FindingCode;
use std::alloc::Global;

/// `this` at a number.
#[tactic(auto, using(bound_tree::proofs::Readings::readings))]
pub(crate) fn this_of(class: &Name, at: u32) -> Result<Expr, OutOfMemory>
    ensures { IfOk result (λ made. term_of made ≡ spec.this_of class.now at) }
{
    let ty = ValueType::Named(class.clone()?);
    Ok(Expr::This(sound(at, at, Some(ty))))
}

/// A name that names nothing.
#[tactic(auto, using(bound_tree::proofs::Readings::readings))]
pub(crate) fn unknown_name(alloc: Global, stamp: Stamp, name: &Name) -> Result<Expr, OutOfMemory>
    ensures { IfOk result (λ made. term_of made ≡ t.Unknown stamp name.now t.no_terms) }
{
    Ok(Expr::Unknown(stamp, name.clone()?, Items::new(alloc)))
}

/// What has no meaning, and the finding there.
fn unknown(
    alloc: Global,
    code: FindingCode,
    at: u32,
    name: &Name,
    notes: &mut Items<Note>,
) -> Result<Expr, OutOfMemory>
    ensures term { IfOk result (λ made. term_of made ≡ (spec.unknown code at name.now).term) }
    ensures notes { OnOk result (notes.new ≡ notes.old ++ (spec.unknown code at name.now).notes) }
{
    put_finding(notes, code, at)?;
    unknown_name(alloc, faulty(at, at), name)
}

/// The word `this`.
pub(crate) fn this_at<T: TypeTable>(
    site: &Ground<'_, T>,
    at: u32,
    notes: &mut Items<Note>,
) -> Result<Expr, OutOfMemory>
    ensures term { IfOk result (λ made. term_of made ≡ (spec.this_at (spec.grounded (T.types site.now.types.now) site.now.class.now site.now.is_static) at).term) }
    ensures notes { OnOk result (notes.new ≡ notes.old ++ (spec.this_at (spec.grounded (T.types site.now.types.now) site.now.class.now site.now.is_static) at).notes) }
{
    if site.is_static {
        let name = Name::from_slice(site.alloc, b"this")?;
        return unknown(site.alloc, FindingCode::StaticUse, at, &name, notes);
    }
    this_of(site.class, at)
}

#[tactic(auto, using(bound_tree::proofs::Readings::readings))]
fn variable<T: TypeTable>(
    types: &T,
    at: u32,
    variable: &Variable,
    notes: &mut Items<Note>,
) -> Result<Expr, OutOfMemory>
    ensures term { IfOk result (λ made. term_of made ≡ (spec.variable (T.types types.now) at variable.now).term) }
    ensures notes { OnOk result (notes.new ≡ notes.old ++ (spec.variable (T.types types.now) at variable.now).notes) }
{
    put_type(notes, &variable.ty)?;
    let found = use_of(types, false, Some(&variable.ty));
    let stamp = used(at, at, Some(&variable.ty), found)?;
    Ok(Expr::Local(stamp, variable.number))
}

/// What a bare name names in the scope.
pub(crate) fn meaning_of<'s, T: TypeTable>(
    site: &'s Ground<'_, T>,
    scope: &'s Scope,
    name: &Name,
) -> Meaning<'s>
    ensures { shown result ≡ spec.meaning_of (spec.grounded (T.types site.now.types.now) site.now.class.now site.now.is_static) scope.now name.now }
{
    scope.meaning(name, site.types.field(site.class, name))
}

/// A bare name.
pub(crate) fn meant<T: TypeTable>(
    site: &Ground<'_, T>,
    at: u32,
    name: &Name,
    meaning: Meaning<'_>,
    notes: &mut Items<Note>,
) -> Result<Expr, OutOfMemory>
    ensures term { IfOk result (λ made. term_of made ≡ (spec.meant (spec.grounded (T.types site.now.types.now) site.now.class.now site.now.is_static) at name.now (shown meaning.entry)).term) }
    ensures notes { OnOk result (notes.new ≡ notes.old ++ (spec.meant (spec.grounded (T.types site.now.types.now) site.now.class.now site.now.is_static) at name.now (shown meaning.entry)).notes) }
{
    match meaning {
        Meaning::Variable(named) => variable(site.types, at, named, notes),
        Meaning::Field(field) => own_field(site, at, field, notes),
        Meaning::Hidden => unknown(site.alloc, FindingCode::UnboundName, at, name, notes),
        Meaning::Free => unknown(site.alloc, FindingCode::UnboundName, at, name, notes),
    }
}

// ---- before a dot

fn word_if_free<'e>(meaning: Meaning<'_>, word: &'e Lexeme) -> Option<&'e Lexeme>
    ensures { (number : Span → ℕ) → word_as number (option_copied result) ≡ spec.word_if_free (shown meaning.entry) (plain_lexeme number word.now) }
{
    match meaning {
        Meaning::Variable(_) => None,
        Meaning::Field(_) => None,
        Meaning::Hidden => None,
        Meaning::Free => Some(word),
    }
}

/// The name of a type that stands before a dot. A bare name that names nothing else is one.
#[tactic(auto, using(tree_places::proofs::PlainShapes::plain_shapes))]
pub(crate) fn type_word<'e, T: TypeTable>(
    site: &Ground<'_, T>,
    scope: &Scope,
    expr: &'e java_tree::Expr,
) -> Option<&'e Lexeme>
    ensures { word_as (number_of site.now.places.now) (option_copied result) ≡ spec.type_word (spec.grounded (T.types site.now.types.now) site.now.class.now site.now.is_static) scope.now (plain_expr (number_of site.now.places.now) expr.now) }
{
    match expr {
        java_tree::Expr::Name(word) => word_if_free(meaning_of(site, scope, &word.text), word),
        java_tree::Expr::Int(_)
        | java_tree::Expr::Str(_)
        | java_tree::Expr::True(_)
        | java_tree::Expr::False(_)
        | java_tree::Expr::Null(_)
        | java_tree::Expr::This(_)
        | java_tree::Expr::Call(_, _, _)
        | java_tree::Expr::New(_, _, _, _)
        | java_tree::Expr::Paren(_, _, _)
        | java_tree::Expr::Select(_, _)
        | java_tree::Expr::CallOn(_, _, _, _)
        | java_tree::Expr::Not(_, _)
        | java_tree::Expr::Neg(_, _)
        | java_tree::Expr::Binary(_, _, _, _) => None,
    }
}

/// The name of a type before a dot, where there is such a type or not.
pub(crate) fn type_before<'e, T: TypeTable>(
    site: &Ground<'_, T>,
    at: u32,
    name: &'e Name,
    notes: &mut Items<Note>,
) -> Result<Before<'e>, OutOfMemory>
    ensures base { IfOk result (λ made. shown_before made ≡ (spec.type_before (T.types site.now.types.now) at name.now).base) }
    ensures notes { OnOk result (notes.new ≡ notes.old ++ (spec.type_before (T.types site.now.types.now) at name.now).notes) }
{
    put_name(notes, name)?;
    if is_known_name(site.types, name) {
        return Ok(Before::OnType(name, at));
    }
    let value = unknown(site.alloc, FindingCode::UnboundName, at, name, notes)?;
    Ok(Before::OnValue(value))
}
