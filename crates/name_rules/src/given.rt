ghost use Rattle.std.specs.Prelude.{◌≡◌};
ghost use Rattle.std.specs.Option.{option_copied};
ghost use Rattle.name_rules.specs.Types as spec;
ghost use Rattle.name_rules.specs.Places.{shown_given, given_type as type_given};

use class_faces::FaceTy;
use desk_base::Name;

/// The type of a value. A class, an interface, Object, String and Runnable are named; `Null` is the
/// type of `null`.
#[derive(Clone, Copy)]
pub enum GivenType<'v> {
    Int,
    Boolean,
    Null,
    Named(&'v Name),
}

/// The type of a value of a declared type. Nothing that can be named has the type of a main's parameter.
pub fn value_type(ty: &FaceTy) -> GivenType<'_>
    ensures { spec.shown_type result ≡ spec.value_type ty.now }
{
    match ty {
        FaceTy::Int => GivenType::Int,
        FaceTy::Bool => GivenType::Boolean,
        FaceTy::Args => GivenType::Null,
        FaceTy::Named(name) => GivenType::Named(name),
    }
}

/// The type of what is given by a use of what has a declared type; a method without result gives
/// nothing.
pub fn given_type(ty: Option<&FaceTy>) -> Option<GivenType<'_>>
    ensures { shown_given result ≡ type_given (option_copied ty.entry) }
{
    match ty {
        Some(ty) => Some(value_type(ty)),
        None => None,
    }
}

/// Whether it is the type of ints.
pub fn is_int(ty: GivenType<'_>) -> bool
    ensures { result ≡ spec.is_int (spec.shown_type ty.entry) }
{
    matches!(ty, GivenType::Int)
}

/// Whether it is the type of booleans.
pub fn is_boolean(ty: GivenType<'_>) -> bool
    ensures { result ≡ spec.is_boolean (spec.shown_type ty.entry) }
{
    matches!(ty, GivenType::Boolean)
}

pub(crate) fn is_null(ty: GivenType<'_>) -> bool
    ensures { result ≡ spec.is_null (spec.shown_type ty.entry) }
{
    matches!(ty, GivenType::Null)
}

pub(crate) fn is_reference(ty: GivenType<'_>) -> bool
    ensures { result ≡ spec.is_reference (spec.shown_type ty.entry) }
{
    match ty {
        GivenType::Int => false,
        GivenType::Boolean => false,
        GivenType::Null => true,
        GivenType::Named(_) => true,
    }
}
