ghost use Rattle.std.specs.Prelude.{◌≡◌, ◌++◌, IfOk, OnOk};
ghost use Rattle.std.specs.Option.{option_copied, option_map};
ghost use Rattle.bound_tree.specs.Tree as t;
ghost use Rattle.bound_tree.specs.Reading.{statement_of, term_of};
ghost use Rattle.name_rules.specs.Places.{shown_place};
ghost use Rattle.expression_binding.specs.Bound.{grounded};
ghost use Rattle.tree_places.specs.Numbers.{number_of};
ghost use Rattle.tree_places.specs.Plain.{plain_expr, plain_lexeme, plain_monitor};
ghost use Rattle.statement_binding.specs.Heads as spec;

use bound_tree::{Expr, Stmt};
use class_faces::FaceTy;
use desk_base::{Boxed, Items, Name, OutOfMemory};
use expression_binding::{Ground, bind_expr};
use java_tree::{Expr as Java, Lexeme, Monitor};
use name_rules::{Note, Place, Scope, TypeTable, is_declared, put_finding_if, put_name};
use result_records::FindingCode;
use std::alloc::Global;

// ---- conditions

/// A condition.
pub(crate) fn bind_condition<T: TypeTable>(
    site: &Ground<'_, T>,
    scope: &Scope,
    test: &Java,
    notes: &mut Items<Note>,
) -> Result<Expr, OutOfMemory>
    ensures term { IfOk result (λ made. term_of made ≡ (spec.condition (grounded (T.types site.now.types.now) site.now.class.now site.now.is_static) scope.now (plain_expr (number_of site.now.places.now) test.now)).term) }
    ensures notes { OnOk result (notes.new ≡ notes.old ++ (spec.condition (grounded (T.types site.now.types.now) site.now.class.now site.now.is_static) scope.now (plain_expr (number_of site.now.places.now) test.now)).notes) }
{
    bind_expr(site, scope, &Place::Boolean, test, notes)
}

/// Code that is done where a condition holds, and code that is done where it doesn't.
#[tactic(auto, using(bound_tree::proofs::Readings::readings))]
pub(crate) fn choice(alloc: Global, test: Expr, yes: Stmt, no: Stmt) -> Result<Stmt, OutOfMemory>
    ensures { IfOk result (λ made. statement_of made ≡ t.If (term_of test) (statement_of yes) (statement_of no)) }
{
    let yes = Boxed::new(alloc, yes)?;
    let no = Boxed::new(alloc, no)?;
    Ok(Stmt::If(test, yes, no))
}

/// Code that is done as long as a condition holds.
#[tactic(auto, using(bound_tree::proofs::Readings::readings))]
pub(crate) fn repeat(alloc: Global, test: Expr, body: Stmt) -> Result<Stmt, OutOfMemory>
    ensures { IfOk result (λ made. statement_of made ≡ t.While (term_of test) (statement_of body)) }
{
    let body = Boxed::new(alloc, body)?;
    Ok(Stmt::While(test, body))
}

// ---- monitors

/// What a `synchronized` statement locks: an object, or a class by its name and the number of that.
#[derive(Drop)]
pub(crate) enum Held {
    Object(Expr),
    Class(u32, Name),
}

fn held_object<T: TypeTable>(
    site: &Ground<'_, T>,
    scope: &Scope,
    value: &Java,
    notes: &mut Items<Note>,
) -> Result<Held, OutOfMemory>
    ensures held { IfOk result (λ made. spec.shown_held made ≡ spec.held_object (grounded (T.types site.now.types.now) site.now.class.now site.now.is_static) scope.now (plain_expr (number_of site.now.places.now) value.now)) }
    ensures notes { OnOk result (notes.new ≡ notes.old ++ spec.object_notes (grounded (T.types site.now.types.now) site.now.class.now site.now.is_static) scope.now (plain_expr (number_of site.now.places.now) value.now)) }
{
    let value = bind_expr(site, scope, &Place::Locked, value, notes)?;
    Ok(Held::Object(value))
}

/// The class whose name stands before `.class`, which has to be a declared one.
fn held_class<T: TypeTable>(
    site: &Ground<'_, T>,
    word: &Lexeme,
    notes: &mut Items<Note>,
) -> Result<Held, OutOfMemory>
    ensures held { IfOk result (λ made. spec.shown_held made ≡ spec.held_class (plain_lexeme (number_of site.now.places.now) word.now)) }
    ensures notes { OnOk result (notes.new ≡ notes.old ++ spec.class_notes (T.types site.now.types.now) (plain_lexeme (number_of site.now.places.now) word.now)) }
{
    put_name(notes, &word.text)?;
    let is_new = !is_declared(site.types, &word.text);
    let at = site.places.place(word.span);
    put_finding_if(notes, is_new, FindingCode::UnknownType, at)?;
    Ok(Held::Class(at, word.text.clone()?))
}

/// What a `synchronized` statement locks.
pub(crate) fn bind_monitor<T: TypeTable>(
    site: &Ground<'_, T>,
    scope: &Scope,
    monitor: &Monitor,
    notes: &mut Items<Note>,
) -> Result<Held, OutOfMemory>
    ensures held { IfOk result (λ made. spec.shown_held made ≡ spec.held_by (grounded (T.types site.now.types.now) site.now.class.now site.now.is_static) scope.now (plain_monitor (number_of site.now.places.now) monitor.now)) }
    ensures notes { OnOk result (notes.new ≡ notes.old ++ spec.held_notes (grounded (T.types site.now.types.now) site.now.class.now site.now.is_static) scope.now (plain_monitor (number_of site.now.places.now) monitor.now)) }
{
    match monitor {
        Monitor::Expr(value) => held_object(site, scope, value, notes),
        Monitor::Class(word, _) => held_class(site, word, notes),
    }
}

/// Code that is done under a monitor.
#[tactic(auto, using(bound_tree::proofs::Readings::readings))]
pub(crate) fn locked(alloc: Global, held: Held, body: Stmt) -> Result<Stmt, OutOfMemory>
    ensures { IfOk result (λ made. statement_of made ≡ spec.locked_by (spec.shown_held held) (statement_of body)) }
{
    let body = Boxed::new(alloc, body)?;
    match held {
        Held::Object(value) => Ok(Stmt::Sync(value, body)),
        Held::Class(at, class) => Ok(Stmt::SyncClass(at, class, body)),
    }
}

// ---- returns

fn result_place(given: Option<&FaceTy>) -> Place<'_>
    ensures { shown_place result ≡ spec.result_place (option_copied given.entry) }
{
    match given {
        Some(ty) => Place::Of(ty),
        None => Place::Anywhere,
    }
}

#[tactic(auto, using(bound_tree::proofs::Readings::readings))]
fn plain_return(at: u32) -> Stmt
    ensures { statement_of result ≡ t.Return at }
{
    Stmt::Return(at)
}

#[tactic(auto, using(bound_tree::proofs::Readings::readings))]
fn value_return(at: u32, value: Expr) -> Stmt
    ensures { statement_of result ≡ t.ReturnValue at (term_of value) }
{
    Stmt::ReturnValue(at, value)
}

/// A return, whose word stands at a number, in a body that gives a value of the declared type, or
/// nothing.
#[tactic(auto, using(crate::proofs::Appends::appends))]
pub(crate) fn bind_return<T: TypeTable>(
    site: &Ground<'_, T>,
    given: Option<&FaceTy>,
    scope: &Scope,
    at: u32,
    value: &Option<Java>,
    notes: &mut Items<Note>,
) -> Result<Stmt, OutOfMemory>
    ensures made { IfOk result (λ made. statement_of made ≡ (spec.returned (grounded (T.types site.now.types.now) site.now.class.now site.now.is_static) (option_copied given.entry) scope.now at (option_map (plain_expr (number_of site.now.places.now)) value.now)).made) }
    ensures notes { OnOk result (notes.new ≡ notes.old ++ (spec.returned (grounded (T.types site.now.types.now) site.now.class.now site.now.is_static) (option_copied given.entry) scope.now at (option_map (plain_expr (number_of site.now.places.now)) value.now)).notes) }
{
    match value {
        Some(value) => {
            let value = bind_expr(site, scope, &result_place(given), value, notes)?;
            put_finding_if(notes, given.is_none(), FindingCode::BadReturn, at)?;
            Ok(value_return(at, value))
        }
        None => {
            put_finding_if(notes, given.is_some(), FindingCode::BadReturn, at)?;
            Ok(plain_return(at))
        }
    }
}
