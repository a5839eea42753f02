ghost use Rattle.std.specs.Prelude.{◌≡◌, IfOk};
ghost use Rattle.std.specs.Option.{option_copied};
ghost use Rattle.name_rules.specs.Types as spec;

use crate::given::{GivenType, is_boolean, is_int, is_null, is_reference};
use class_faces::{FaceTy, FieldFace, MemberFace};
use desk_base::{Name, OutOfMemory};
use java_tree::TypeKind;
use std::alloc::Global;

/// What binding asks of the types that it binds under. Names find the first ones alone.
pub trait TypeTable {
    ghost types: { Self → spec.Types };

    /// The kind of the declared type of a name.
    fn kind(&self, name: &Name) -> Option<TypeKind>
        ensures { result ≡ spec.kind_in (types self.now name.now) };

    /// Whether the declared type of a name names an interface as implemented.
    fn lists(&self, class: &Name, interface: &[u8]) -> bool
        ensures { result ≡ spec.lists_interface interface.now (types self.now class.now) };

    /// The first field of a name that the declared type has.
    fn field(&self, class: &Name, name: &Name) -> Option<&FieldFace>
        ensures { option_copied result ≡ spec.field_of (types self.now) class.now name.now };

    /// The first method, interface method or main of a name and number of parameters.
    fn method(
        &self,
        alloc: Global,
        class: &Name,
        name: &Name,
        count: usize,
    ) -> Result<Option<&MemberFace>, OutOfMemory>
        ensures { IfOk result (λ member. option_copied member ≡ spec.member_in (spec.member_key class.now name.now count) (types self.now class.now)) };

    /// The methods, interface methods, constructors and mains of the declared type.
    fn members(&self, class: &Name) -> &[MemberFace]
        ensures { result.now ≡ spec.members_in (types self.now class.now) };

    /// The first constructor.
    fn constructor(&self, class: &Name) -> Option<&MemberFace>
        ensures { option_copied result ≡ spec.maker_in class.now (types self.now class.now) };
}

/// Whether the name is `Runnable`.
pub fn is_runnable(name: &[u8]) -> bool
    ensures { result ≡ spec.is_runnable name.now }
{
    name == b"Runnable".as_slice()
}

/// Whether the name is `Object`.
pub fn is_object(name: &[u8]) -> bool
    ensures { result ≡ spec.is_object name.now }
{
    name == b"Object".as_slice()
}

fn is_string(name: &[u8]) -> bool
    ensures { result ≡ spec.is_string name.now }
{
    name == b"String".as_slice()
}

fn is_built_in(name: &[u8]) -> bool
    ensures { result ≡ spec.is_built_in name.now }
{
    is_object(name) || is_string(name) || is_runnable(name)
}

/// Whether a class or an interface of the name is declared.
pub fn is_declared<T: TypeTable>(types: &T, name: &Name) -> bool
    ensures { result ≡ spec.is_declared (T.types types.now) name.now }
{
    types.kind(name).is_some()
}

/// Whether a class of the name is declared.
pub fn is_class<T: TypeTable>(types: &T, name: &Name) -> bool
    ensures { result ≡ spec.is_class (T.types types.now) name.now }
{
    matches!(types.kind(name), Some(TypeKind::Class))
}

/// Whether there is a type of the name. Object, String and Runnable are there without a declaration.
pub fn is_known_name<T: TypeTable>(types: &T, name: &Name) -> bool
    ensures { result ≡ spec.is_known_name (T.types types.now) name.now }
{
    is_built_in(name.as_slice()) || is_declared(types, name)
}

/// Whether there is such a type.
pub fn is_known<T: TypeTable>(types: &T, ty: &FaceTy) -> bool
    ensures { result ≡ spec.is_known (T.types types.now) ty.now }
{
    match ty {
        FaceTy::Int => true,
        FaceTy::Bool => true,
        FaceTy::Args => true,
        FaceTy::Named(name) => is_known_name(types, name),
    }
}

/// Runnable counts as an interface.
pub fn is_interface<T: TypeTable>(types: &T, name: &Name) -> bool
    ensures { result ≡ spec.is_interface (T.types types.now) name.now }
{
    is_runnable(name.as_slice()) || matches!(types.kind(name), Some(TypeKind::Interface))
}

/// Whether a class names an interface as implemented.
pub fn implements<T: TypeTable>(types: &T, class: &Name, interface: &Name) -> bool
    ensures { result ≡ spec.implements (T.types types.now) class.now interface.now }
{
    is_class(types, class)
        && is_interface(types, interface)
        && types.lists(class, interface.as_slice())
}

fn is_object_kind<T: TypeTable>(types: &T, name: &Name) -> bool
    ensures { result ≡ spec.is_object_kind (T.types types.now) name.now }
{
    is_declared(types, name) || is_runnable(name.as_slice())
}

fn class_suits<T: TypeTable>(types: &T, class: &Name, place: &Name) -> bool
    ensures { result ≡ spec.class_suits (T.types types.now) class.now place.now }
{
    class == place
        || is_object(place.as_slice()) && is_object_kind(types, class)
        || implements(types, class, place)
}

fn suits_name<T: TypeTable>(types: &T, ty: GivenType<'_>, place: &Name) -> bool
    ensures { result ≡ spec.suits_name (T.types types.now) (spec.shown_type ty.entry) place.now }
{
    match ty {
        GivenType::Int => false,
        GivenType::Boolean => false,
        GivenType::Null => true,
        GivenType::Named(class) => class_suits(types, class, place),
    }
}

/// Whether a value of the type suits a place of the declared type (JLS 8, 4.10 and 5.2, as far as the
/// subset goes): `null` suits every type but int and boolean, each class, interface and Runnable suits
/// Object, and a class the interfaces that it implements. A String is no Object.
pub fn suits<T: TypeTable>(types: &T, ty: GivenType<'_>, place: &FaceTy) -> bool
    ensures { result ≡ spec.suits (T.types types.now) (spec.shown_type ty.entry) place.now }
{
    match place {
        FaceTy::Int => is_int(ty),
        FaceTy::Bool => is_boolean(ty),
        FaceTy::Args => is_null(ty),
        FaceTy::Named(name) => suits_name(types, ty, name),
    }
}

fn suit_each_other<T: TypeTable>(types: &T, one: &Name, other: &Name) -> bool
    ensures { result ≡ spec.name_compares (T.types types.now) one.now (spec.Named other.now) }
{
    class_suits(types, one, other) || class_suits(types, other, one)
}

fn name_compares<T: TypeTable>(types: &T, class: &Name, ty: GivenType<'_>) -> bool
    ensures { result ≡ spec.name_compares (T.types types.now) class.now (spec.shown_type ty.entry) }
{
    match ty {
        GivenType::Int => false,
        GivenType::Boolean => false,
        GivenType::Null => true,
        GivenType::Named(other) => suit_each_other(types, class, other),
    }
}

/// Whether `==` takes values of the two types: two ints, two booleans, or two references of which one
/// suits the other (JLS 8, 15.21, as far as the subset goes).
pub fn compares<T: TypeTable>(types: &T, left: GivenType<'_>, right: GivenType<'_>) -> bool
    ensures { result ≡ spec.compares (T.types types.now) (spec.shown_type left.entry) (spec.shown_type right.entry) }
{
    match left {
        GivenType::Int => is_int(right),
        GivenType::Boolean => is_boolean(right),
        GivenType::Null => is_reference(right),
        GivenType::Named(class) => name_compares(types, class, right),
    }
}

/// Whether a `synchronized` statement takes a value of the type: it takes no int, boolean or String.
pub fn has_monitor(ty: GivenType<'_>) -> bool
    ensures { result ≡ spec.has_monitor (spec.shown_type ty.entry) }
{
    match ty {
        GivenType::Int => false,
        GivenType::Boolean => false,
        GivenType::Null => true,
        GivenType::Named(name) => !is_string(name.as_slice()),
    }
}

/// Whether a thread can be started with a value of the type: a Runnable, or one of a class that
/// implements it.
pub fn can_start<T: TypeTable>(types: &T, ty: GivenType<'_>) -> bool
    ensures { result ≡ spec.can_start (T.types types.now) (spec.shown_type ty.entry) }
{
    match ty {
        GivenType::Int => false,
        GivenType::Boolean => false,
        GivenType::Null => false,
        GivenType::Named(name) => name_starts(types, name),
    }
}

fn name_starts<T: TypeTable>(types: &T, name: &Name) -> bool
    ensures { result ≡ spec.can_start (T.types types.now) (spec.Named name.now) }
{
    is_runnable(name.as_slice())
        || is_class(types, name) && types.lists(name, b"Runnable".as_slice())
}
