ghost use Rattle.std.specs.Prelude.{◌≡◌, ◌++◌, IfOk, OnOk, Some};
ghost use Rattle.name_rules.specs.Types.{Named};
ghost use Rattle.name_rules.specs.Places.{Of, misplaced as misplaced_type};
ghost use Rattle.tree_places.specs.Numbers.{number_of};
ghost use Rattle.statement_binding.specs.Initials as spec;

use bound_tree::Initial;
use class_faces::FaceTy;
use desk_base::{Items, Name, OutOfMemory, Span};
use expression_binding::{Ground, int_value};
use java_lexer::string_value;
use java_tree::Init;
use name_rules::{GivenType, Note, Place, TypeTable, misplaced, put_finding};
use result_records::FindingCode;
use std::alloc::Global;

const LEAST: i32 = i32::MIN;

fn plus(number: u32) -> i32
    ensures { result ≡ spec.plus number }
{
    if number < 2147483648 {
        number as i32
    } else {
        LEAST
    }
}

fn minus(number: u32) -> i32
    ensures { result ≡ spec.minus number }
{
    if number < 2147483648 {
        -(number as i32)
    } else {
        LEAST
    }
}

fn default_of(ty: &FaceTy) -> Initial
    ensures { result ≡ spec.default ty.now }
{
    match ty {
        FaceTy::Int => Initial::Int(0),
        FaceTy::Bool => Initial::Boolean(false),
        FaceTy::Args => Initial::Null,
        FaceTy::Named(_) => Initial::Null,
    }
}

fn written(alloc: Global, init: &Init) -> Result<Initial, OutOfMemory>
    ensures { IfOk result (λ made. made ≡ spec.written init.now) }
{
    match init {
        Init::Int(word) => Ok(Initial::Int(plus(int_value(word.text.as_slice())))),
        Init::MinusInt(_, word) => Ok(Initial::Int(minus(int_value(word.text.as_slice())))),
        Init::True(_) => Ok(Initial::Boolean(true)),
        Init::False(_) => Ok(Initial::Boolean(false)),
        Init::Null(_) => Ok(Initial::Null),
        Init::Str(word) => Ok(Initial::Str(string_value(alloc, word.text.as_slice())?)),
        Init::NewObject(_) => Ok(Initial::FreshObject),
    }
}

fn place_of(init: &Init) -> Span
    ensures { result ≡ spec.place_of_init init.now }
{
    match init {
        Init::Int(word) => word.span,
        Init::Str(word) => word.span,
        Init::MinusInt(at, _)
        | Init::True(at)
        | Init::False(at)
        | Init::Null(at)
        | Init::NewObject(at) => *at,
    }
}

fn misplaced_name<T: TypeTable>(
    site: &Ground<'_, T>,
    ty: &FaceTy,
    name: &[u8],
) -> Result<Option<FindingCode>, OutOfMemory>
    ensures { IfOk result (λ found. found ≡ misplaced_type (T.types site.now.types.now) (Of ty.now) (Some (Named name.now))) }
{
    let name = Name::from_slice(site.alloc, name)?;
    Ok(misplaced(site.types, &Place::Of(ty), Some(GivenType::Named(&name))))
}

/// The finding of an initializer that doesn't suit the field's type.
fn misplaced_init<T: TypeTable>(
    site: &Ground<'_, T>,
    ty: &FaceTy,
    init: &Init,
) -> Result<Option<FindingCode>, OutOfMemory>
    ensures { IfOk result (λ found. found ≡ misplaced_type (T.types site.now.types.now) (Of ty.now) (Some (spec.type_of_init init.now))) }
{
    match init {
        Init::Int(_) | Init::MinusInt(_, _) => {
            Ok(misplaced(site.types, &Place::Of(ty), Some(GivenType::Int)))
        }
        Init::True(_) | Init::False(_) => {
            Ok(misplaced(site.types, &Place::Of(ty), Some(GivenType::Boolean)))
        }
        Init::Null(_) => Ok(misplaced(site.types, &Place::Of(ty), Some(GivenType::Null))),
        Init::Str(_) => misplaced_name(site, ty, b"String"),
        Init::NewObject(_) => misplaced_name(site, ty, b"Object"),
    }
}

fn put_found(
    notes: &mut Items<Note>,
    found: Option<FindingCode>,
    at: u32,
) -> Result<(), OutOfMemory>
    ensures { OnOk result (notes.new ≡ notes.old ++ spec.finding_at found at) }
{
    match found {
        Some(code) => put_finding(notes, code, at),
        None => Ok(()),
    }
}

fn bind_written<T: TypeTable>(
    site: &Ground<'_, T>,
    ty: &FaceTy,
    init: &Init,
    notes: &mut Items<Note>,
) -> Result<Initial, OutOfMemory>
    ensures value { IfOk result (λ made. made ≡ spec.written init.now) }
    ensures notes { OnOk result (notes.new ≡ notes.old ++ spec.initial_notes (T.types site.now.types.now) (number_of site.now.places.now) ty.now (Some init.now)) }
{
    let found = misplaced_init(site, ty, init)?;
    put_found(notes, found, site.places.place(place_of(init)))?;
    written(site.alloc, init)
}

/// The value that a field of a declared type begins with: that of its initializer, or else that of its
/// type (JLS 8, 4.12.5). An initializer that doesn't suit the type is found at its first token.
pub fn bind_initial<T: TypeTable>(
    site: &Ground<'_, T>,
    ty: &FaceTy,
    init: &Option<Init>,
    notes: &mut Items<Note>,
) -> Result<Initial, OutOfMemory>
    ensures value { IfOk result (λ made. made ≡ spec.initial ty.now init.now) }
    ensures notes { OnOk result (notes.new ≡ notes.old ++ spec.initial_notes (T.types site.now.types.now) (number_of site.now.places.now) ty.now init.now) }
{
    match init {
        Some(init) => bind_written(site, ty, init, notes),
        None => Ok(default_of(ty)),
    }
}
