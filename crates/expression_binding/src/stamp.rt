ghost use Rattle.std.specs.Prelude.{◌≡◌, IfOk, Some};
ghost use Rattle.std.specs.Option.{option_copied};
ghost use Rattle.name_rules.specs.Types.{shown_type};
ghost use Rattle.name_rules.specs.Places.{shown_given};
ghost use Rattle.expression_binding.specs.Stamps as spec;

use bound_tree::{Stamp, ValueType};
use class_faces::FaceTy;
use desk_base::OutOfMemory;
use name_rules::{GivenType, Use};

/// The type of a value of a declared type.
pub fn type_of(ty: &FaceTy) -> Result<ValueType, OutOfMemory>
    ensures { IfOk result (λ made. made ≡ spec.type_of ty.now) }
{
    match ty {
        FaceTy::Int => Ok(ValueType::Int),
        FaceTy::Bool => Ok(ValueType::Boolean),
        FaceTy::Args => Ok(ValueType::Null),
        FaceTy::Named(name) => Ok(ValueType::Named(name.clone()?)),
    }
}

fn type_given(given: Option<&FaceTy>) -> Result<Option<ValueType>, OutOfMemory>
    ensures { IfOk result (λ made. made ≡ spec.type_given (option_copied given.entry)) }
{
    match given {
        Some(ty) => Ok(Some(type_of(ty)?)),
        None => Ok(None),
    }
}

/// A type as it is judged.
pub fn judged_type(ty: &ValueType) -> GivenType<'_>
    ensures { shown_type result ≡ spec.judged_type ty.now }
{
    match ty {
        ValueType::Int => GivenType::Int,
        ValueType::Boolean => GivenType::Boolean,
        ValueType::Null => GivenType::Null,
        ValueType::Named(name) => GivenType::Named(name),
    }
}

/// The type of what has a value, as it is judged.
pub fn judged_given(ty: &Option<ValueType>) -> Option<GivenType<'_>>
    ensures { shown_given result ≡ spec.judged_given ty.now }
{
    match ty {
        Some(ty) => Some(judged_type(ty)),
        None => None,
    }
}

/// The stamp of an expression without findings in it, with its type where it has a value.
pub fn sound(at: u32, first: u32, ty: Option<ValueType>) -> Stamp
    ensures { result ≡ spec.sound at first ty }
{
    Stamp {
        at,
        first,
        ty,
        is_faulty: false,
        is_misplaced: false,
    }
}

/// The stamp of an expression with a bind finding at it or in it, or of a use of what has an unknown
/// type.
pub fn faulty(at: u32, first: u32) -> Stamp
    ensures { result ≡ spec.faulty at first }
{
    Stamp {
        at,
        first,
        ty: None,
        is_faulty: true,
        is_misplaced: false,
    }
}

/// The stamp of an expression of a type, unless a part of it is bad.
pub fn unless_bad(bad: bool, at: u32, first: u32, ty: ValueType) -> Stamp
    ensures { result ≡ spec.unless_bad bad at first ty }
{
    if bad {
        faulty(at, first)
    } else {
        sound(at, first, Some(ty))
    }
}

/// The stamp of a use of what has a declared type, or of a method without result.
pub fn used(at: u32, first: u32, given: Option<&FaceTy>, found: Use) -> Result<Stamp, OutOfMemory>
    ensures { IfOk result (λ made. made ≡ spec.used at first (option_copied given.entry) found) }
{
    match found {
        Use::Unjudged => Ok(faulty(at, first)),
        Use::Misused => Ok(faulty(at, first)),
        Use::Used => Ok(sound(at, first, type_given(given)?)),
    }
}
