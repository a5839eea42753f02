ghost use Rattle.std.specs.Prelude.{◌≡◌};
ghost use Rattle.name_rules.specs.Places as spec;
ghost use Rattle.name_rules.specs.Types.{shown_type};

use crate::given::{GivenType, is_boolean, is_int};
use crate::types::{TypeTable, can_start, compares, has_monitor, is_known, suits};
use class_faces::FaceTy;
use result_records::FindingCode;

/// The place that an expression's type has to suit.
#[derive(Drop)]
pub enum Place<'p> {
    /// A call or `new` as a statement.
    Anywhere,
    /// Before a dot, or the first operand of `==`.
    AnyValue,
    /// Where an int, or a boolean, is asked for.
    Int,
    Boolean,
    /// Where a type is declared.
    Of(&'p FaceTy),
    /// The second operand of `==`.
    Beside(GivenType<'p>),
    /// The head of a `synchronized` statement.
    Locked,
    /// What a thread is started with.
    Started,
}

fn found_unless(fits: bool, code: FindingCode) -> Option<FindingCode>
    ensures { result ≡ spec.found_unless fits code }
{
    if fits { None } else { Some(code) }
}

fn misplaced_nothing<T: TypeTable>(types: &T, place: &Place<'_>) -> Option<FindingCode>
    ensures { result ≡ spec.misplaced_nothing (T.types types.now) (spec.shown_place place.now) }
{
    match place {
        Place::Anywhere => None,
        Place::Of(ty) => found_unless(!is_known(types, ty), FindingCode::WrongType),
        Place::AnyValue => Some(FindingCode::WrongType),
        Place::Int => Some(FindingCode::WrongType),
        Place::Boolean => Some(FindingCode::WrongType),
        Place::Beside(_) => Some(FindingCode::WrongType),
        Place::Locked => Some(FindingCode::WrongType),
        Place::Started => Some(FindingCode::BadStart),
    }
}

fn misplaced_value<T: TypeTable>(
    types: &T,
    place: &Place<'_>,
    value: GivenType<'_>,
) -> Option<FindingCode>
    ensures { result ≡ spec.misplaced_value (T.types types.now) (spec.shown_place place.now) (shown_type value.entry) }
{
    match place {
        Place::Anywhere => None,
        Place::AnyValue => None,
        Place::Int => found_unless(is_int(value), FindingCode::WrongType),
        Place::Boolean => found_unless(is_boolean(value), FindingCode::WrongType),
        Place::Of(ty) => found_unless(
            !is_known(types, ty) || suits(types, value, ty),
            FindingCode::WrongType,
        ),
        Place::Beside(ty) => found_unless(compares(types, *ty, value), FindingCode::WrongType),
        Place::Locked => found_unless(has_monitor(value), FindingCode::WrongType),
        Place::Started => found_unless(can_start(types, value), FindingCode::BadStart),
    }
}

/// The bind finding of an expression that doesn't suit its place, by its type, or none where it is a
/// call of a method without result. A place whose type isn't there asks for nothing.
pub fn misplaced<T: TypeTable>(
    types: &T,
    place: &Place<'_>,
    ty: Option<GivenType<'_>>,
) -> Option<FindingCode>
    ensures { result ≡ spec.misplaced (T.types types.now) (spec.shown_place place.now) (spec.shown_given ty.entry) }
{
    match ty {
        None => misplaced_nothing(types, place),
        Some(value) => misplaced_value(types, place, value),
    }
}
