ghost use Rattle.std.specs.Prelude.{◌≡◌};
ghost use Rattle.std.specs.Option.{option_copied};
ghost use Rattle.bound_tree.specs.Reading.{term_of};
ghost use Rattle.expression_binding.specs.Before as spec;

use bound_tree::{Expr, ValueType, is_bad, stamp_of};
use desk_base::Name;

/// What stands before a dot: a type, by its name and the number of that, or a value.
#[derive(Drop)]
pub(crate) enum Before<'e> {
    OnType(&'e Name, u32),
    OnValue(Expr),
}

/// The number of the first token.
pub(crate) fn first_of(before: &Before<'_>) -> u32
    ensures { result ≡ spec.first_of (spec.shown_before before.now) }
{
    match before {
        Before::OnType(_, at) => *at,
        Before::OnValue(value) => stamp_of(value).first,
    }
}

/// Whether a finding stands there already.
pub(crate) fn is_lost(before: &Before<'_>) -> bool
    ensures { result ≡ spec.is_lost (spec.shown_before before.now) }
{
    match before {
        Before::OnType(_, _) => false,
        Before::OnValue(value) => is_bad(value),
    }
}

/// Whether a member, static or not, is named by what it isn't to be named by.
pub(crate) fn is_misuse(before: &Before<'_>, is_static: bool) -> bool
    ensures { result ≡ spec.is_misuse (spec.shown_before before.now) is_static }
{
    match before {
        Before::OnType(_, _) => !is_static,
        Before::OnValue(_) => is_static,
    }
}

fn class_of(ty: &Option<ValueType>) -> Option<&Name>
    ensures { option_copied result ≡ spec.class_of ty.now }
{
    match ty {
        Some(ValueType::Named(class)) => Some(class),
        Some(ValueType::Int) | Some(ValueType::Boolean) | Some(ValueType::Null) => None,
        None => None,
    }
}

fn class_of_value(value: &Expr) -> Option<&Name>
    ensures { option_copied result ≡ spec.class_of_value (term_of value.now) }
{
    if is_bad(value) {
        None
    } else {
        class_of(&stamp_of(value).ty)
    }
}

/// The type whose fields and methods stand behind the dot, if it has any.
pub(crate) fn class_before<'b>(before: &'b Before<'_>) -> Option<&'b Name>
    ensures { option_copied result ≡ spec.class_before (spec.shown_before before.now) }
{
    match before {
        Before::OnType(class, _) => Some(class),
        Before::OnValue(value) => class_of_value(value),
    }
}
