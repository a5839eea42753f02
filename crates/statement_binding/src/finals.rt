ghost use Rattle.std.specs.Prelude.{◌≡◌, ℕ, OnOk};
ghost use Rattle.std.specs.Option.{option_copied};
ghost use Rattle.desk_base.specs.declared.span.Span.{Span};
ghost use Rattle.bound_tree.specs.Reading.{term_of};
ghost use Rattle.name_rules.specs.Scopes.{shown};
ghost use Rattle.expression_binding.specs.Bound.{grounded, meaning_of as meaning_as};
ghost use Rattle.tree_places.specs.Numbers.{number_of};
ghost use Rattle.tree_places.specs.Plain.{plain_expr};
ghost use Rattle.statement_binding.specs.Finals as spec;

use bound_tree::Expr;
use class_faces::FieldFace;
use desk_base::{Name, OutOfMemory};
use expression_binding::Ground;
use java_tree::Expr as Java;
use name_rules::{Entry, Meaning, Scope, TypeTable};

/// What a bare name names in the scope.
fn meaning_of<'s, T: TypeTable>(
    site: &'s Ground<'_, T>,
    scope: &'s Scope,
    name: &Name,
) -> Meaning<'s>
    ensures { shown result ≡ meaning_as (grounded (T.types site.now.types.now) site.now.class.now site.now.is_static) scope.now name.now }
{
    scope.meaning(name, site.types.field(site.class, name))
}

// ---- what is final

fn final_meaning(meaning: Meaning<'_>) -> bool
    ensures { result ≡ spec.final_meaning (shown meaning.entry) }
{
    match meaning {
        Meaning::Variable(variable) => variable.is_final,
        Meaning::Field(field) => field.is_final,
        Meaning::Hidden => false,
        Meaning::Free => false,
    }
}

#[tactic(auto, using(bound_tree::proofs::Readings::readings))]
fn final_field(target: &Expr) -> bool
    ensures { result ≡ spec.final_field (term_of target.now) }
{
    match target {
        Expr::Field(_, _, field) => field.is_final,
        Expr::Static(_, field) => field.is_final,
        Expr::Const(_, _)
        | Expr::This(_)
        | Expr::Local(_, _)
        | Expr::New(_, _, _)
        | Expr::Call(_, _, _, _)
        | Expr::CallStatic(_, _, _)
        | Expr::Unknown(_, _, _)
        | Expr::UnknownField(_, _, _)
        | Expr::UnknownCall(_, _, _, _)
        | Expr::Unary(_, _, _)
        | Expr::And(_, _, _)
        | Expr::Or(_, _, _)
        | Expr::Binary(_, _, _, _) => false,
    }
}

/// Whether a target is final, as it is written and as it is bound.
#[tactic(auto, using(tree_places::proofs::PlainShapes::plain_shapes))]
pub(crate) fn is_final<T: TypeTable>(
    site: &Ground<'_, T>,
    scope: &Scope,
    target: &Java,
    bound: &Expr,
) -> bool
    ensures { result ≡ spec.is_final (grounded (T.types site.now.types.now) site.now.class.now site.now.is_static) scope.now (plain_expr (number_of site.now.places.now) target.now) (term_of bound.now) }
{
    match target {
        Java::Name(word) => final_meaning(meaning_of(site, scope, &word.text)),
        Java::Int(_)
        | Java::Str(_)
        | Java::True(_)
        | Java::False(_)
        | Java::Null(_)
        | Java::This(_)
        | Java::Call(_, _, _)
        | Java::New(_, _, _, _)
        | Java::Paren(_, _, _)
        | Java::Select(_, _)
        | Java::CallOn(_, _, _, _)
        | Java::Not(_, _)
        | Java::Neg(_, _)
        | Java::Binary(_, _, _, _) => final_field(bound),
    }
}

// ---- final fields without initializer

fn is_blank(field: &FieldFace) -> bool
    ensures { result ≡ spec.is_blank field.now }
{
    field.is_final && !field.final_init
}

fn blank_meaning(meaning: Meaning<'_>) -> bool
    ensures { result ≡ spec.blank_meaning (shown meaning.entry) }
{
    match meaning {
        Meaning::Variable(_) => false,
        Meaning::Field(field) => is_blank(field),
        Meaning::Hidden => false,
        Meaning::Free => false,
    }
}

fn blank_instance(field: Option<&FieldFace>) -> bool
    ensures { result ≡ spec.blank_instance (option_copied field.entry) }
{
    match field {
        Some(field) => is_blank(field) && !field.is_static,
        None => false,
    }
}

#[tactic(auto, using(tree_places::proofs::PlainShapes::plain_shapes))]
fn is_this(expr: &Java) -> bool
    ensures { (number : Span → ℕ) → result ≡ spec.is_this (plain_expr number expr.now) }
{
    match expr {
        Java::This(_) => true,
        Java::Int(_)
        | Java::Str(_)
        | Java::True(_)
        | Java::False(_)
        | Java::Null(_)
        | Java::Name(_)
        | Java::Call(_, _, _)
        | Java::New(_, _, _, _)
        | Java::Paren(_, _, _)
        | Java::Select(_, _)
        | Java::CallOn(_, _, _, _)
        | Java::Not(_, _)
        | Java::Neg(_, _)
        | Java::Binary(_, _, _, _) => false,
    }
}

fn name_if(is: bool, name: &Name) -> Option<&Name>
    ensures { option_copied result ≡ spec.name_if is name.now }
{
    if is { Some(name) } else { None }
}

/// The name of the final field without initializer that a target of the form `f` or `this.f` is.
#[tactic(auto, using(tree_places::proofs::PlainShapes::plain_shapes))]
pub(crate) fn blank_target<'e, T: TypeTable>(
    site: &Ground<'_, T>,
    scope: &Scope,
    target: &'e Java,
) -> Option<&'e Name>
    ensures { option_copied result ≡ spec.blank_target (grounded (T.types site.now.types.now) site.now.class.now site.now.is_static) scope.now (plain_expr (number_of site.now.places.now) target.now) }
{
    match target {
        Java::Name(word) => {
            let blank = blank_meaning(meaning_of(site, scope, &word.text));
            name_if(blank, &word.text)
        }
        Java::Select(from, word) => {
            let blank = blank_instance(site.types.field(site.class, &word.text));
            name_if(is_this(from.get()) && blank, &word.text)
        }
        Java::Int(_)
        | Java::Str(_)
        | Java::True(_)
        | Java::False(_)
        | Java::Null(_)
        | Java::This(_)
        | Java::Call(_, _, _)
        | Java::New(_, _, _, _)
        | Java::Paren(_, _, _)
        | Java::CallOn(_, _, _, _)
        | Java::Not(_, _)
        | Java::Neg(_, _)
        | Java::Binary(_, _, _, _) => None,
    }
}

/// Whether the field is written for the first time. The fields that are written stand in a scope, as
/// names that name no variable.
pub(crate) fn is_first_write(written: &Scope, name: Option<&Name>) -> bool
    ensures { result ≡ spec.is_first_write written.now (option_copied name.entry) }
{
    match name {
        Some(name) => !written.has(name),
        None => false,
    }
}

/// Counts the field as written.
pub(crate) fn put_written(written: &mut Scope, name: Option<&Name>) -> Result<(), OutOfMemory>
    ensures { OnOk result (written.new ≡ spec.with_written written.old (option_copied name.entry)) }
{
    match name {
        Some(name) => {
            let entry = Entry {
                name: name.clone()?,
                variable: None,
            };
            written.put(entry)
        }
        None => Ok(()),
    }
}
