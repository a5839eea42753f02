//! Classes and interfaces of a program.

ghost use Rattle.std.specs.Prelude.{◌≡◌, map, IfOk};
ghost use Rattle.std.specs.Option.{option_copied};
ghost use Rattle.lowering.specs.Numbers.{or_zero};
ghost use Rattle.program_maker.specs.Kept.{numbers_as, surfaces_lent, units_lent};
ghost use Rattle.program_maker.specs.Numbered.{HasNumbers, number_at};
ghost use Rattle.program_maker.specs.Program as spec;

use crate::numbering::{number_of, short};
use crate::numbers::{NameNumbers, name_in};
use bound_tree::{Initial as BoundInitial, Part};
use bound_unit::BoundUnit;
use class_faces::{FaceTy, FieldFace, MemberFace, member_key};
use core_model::{ClassId, ClassInfo, FieldInfo, Initial, UnitName, Value};
use desk_base::{Items, Name, OutOfMemory, Text};
use promise_scrub::Surface;
use std::alloc::Global;

/// The first unit of the key.
fn unit_keyed<'a>(
    numbers: &NameNumbers<'_>,
    units: &[&'a BoundUnit],
    key: &Text,
) -> Option<&'a BoundUnit>
    requires { HasNumbers numbers.now.units (spec.unit_place (units_lent units.now)) }
    ensures { option_copied result ≡ spec.unit_keyed (units_lent units.now) key.now }
{
    let place = number_of(&numbers.units, key.as_str().as_bytes())? as usize;
    units.get(place).copied()
}

fn initial_of(numbers: &NameNumbers<'_>, initial: &BoundInitial) -> Initial
    ensures { result ≡ spec.initial_number (numbers_as numbers.now) initial.now }
{
    match initial {
        BoundInitial::Int(number) => Initial::Held(Value::Int(*number)),
        BoundInitial::Boolean(is_true) => Initial::Held(Value::Bool(*is_true)),
        BoundInitial::Null => Initial::Held(Value::Null),
        BoundInitial::Str(text) => Initial::Held(Value::Str(numbers.text(text.as_slice()))),
        BoundInitial::FreshObject => Initial::FreshObject,
    }
}

/// What a field begins with by its unit.
fn initial_by(numbers: &NameNumbers<'_>, unit: Option<&BoundUnit>) -> Initial
    ensures { result ≡ spec.initial_of_unit (numbers_as numbers.now) (option_copied unit.entry) }
{
    let unit = match unit {
        Some(unit) => unit,
        None => return Initial::Held(Value::Null),
    };
    match &unit.tree().part {
        Part::Field(_, initial) => initial_of(numbers, initial),
        Part::Header(_) | Part::Sig(_, _) | Part::Body(_) => Initial::Held(Value::Null),
    }
}

fn field_info(
    alloc: Global,
    numbers: &NameNumbers<'_>,
    units: &[&BoundUnit],
    class: &Name,
    field: &FieldFace,
) -> Result<FieldInfo, OutOfMemory>
    requires { HasNumbers numbers.now.units (spec.unit_place (units_lent units.now)) }
    ensures { IfOk result (λ info. info ≡ spec.field_info (numbers_as numbers.now) (units_lent units.now) class.now field.now) }
{
    let key = member_key(alloc, class.as_slice(), field.name.as_slice(), None, 1)?;
    let initial = initial_by(numbers, unit_keyed(numbers, units, &key));
    Ok(FieldInfo {
        name: field.name.clone()?,
        is_static: field.is_static,
        is_final: field.is_final,
        initial,
    })
}

fn field_infos(
    alloc: Global,
    numbers: &NameNumbers<'_>,
    units: &[&BoundUnit],
    surface: &Surface,
) -> Result<Items<FieldInfo>, OutOfMemory>
    requires { HasNumbers numbers.now.units (spec.unit_place (units_lent units.now)) }
    ensures { IfOk result (λ infos. infos ≡ map (spec.field_info (numbers_as numbers.now) (units_lent units.now) surface.now.name) surface.now.fields) }
{
    let mut infos = Items::new(alloc);
    for field in surface.fields.as_slice() {
        infos.push(field_info(alloc, numbers, units, &surface.name, field)?)?;
    }
    Ok(infos)
}

/// The number of the first unit of the key.
fn unit_number(numbers: &NameNumbers<'_>, key: &Text) -> u32
    ensures { result ≡ or_zero (number_at numbers.now.units key.now) }
{
    number_of(&numbers.units, key.as_str().as_bytes()).unwrap_or(0)
}

fn member_info(
    numbers: &NameNumbers<'_>,
    units: &[&BoundUnit],
    member: &MemberFace,
) -> Result<UnitName, OutOfMemory>
    requires { HasNumbers numbers.now.units (spec.unit_place (units_lent units.now)) }
    ensures { IfOk result (λ info. info ≡ spec.member_info (numbers_as numbers.now) (units_lent units.now) member.now) }
{
    Ok(UnitName {
        name: numbers.member(name_in(&member.key).as_bytes()),
        params: short(member.params.len())?,
        unit: unit_number(numbers, &member.key),
    })
}

fn member_infos(
    alloc: Global,
    numbers: &NameNumbers<'_>,
    units: &[&BoundUnit],
    surface: &Surface,
) -> Result<Items<UnitName>, OutOfMemory>
    requires { HasNumbers numbers.now.units (spec.unit_place (units_lent units.now)) }
    ensures { IfOk result (λ infos. infos ≡ map (spec.member_info (numbers_as numbers.now) (units_lent units.now)) surface.now.members) }
{
    let mut infos = Items::new(alloc);
    for member in surface.members.as_slice() {
        infos.push(member_info(numbers, units, member)?)?;
    }
    Ok(infos)
}

fn class_info(
    alloc: Global,
    numbers: &NameNumbers<'_>,
    units: &[&BoundUnit],
    surface: &Surface,
) -> Result<ClassInfo, OutOfMemory>
    requires { HasNumbers numbers.now.units (spec.unit_place (units_lent units.now)) }
    ensures { IfOk result (λ info. info ≡ spec.class_info (numbers_as numbers.now) (units_lent units.now) surface.now) }
{
    let fields = field_infos(alloc, numbers, units, surface)?;
    let units = member_infos(alloc, numbers, units, surface)?;
    Ok(ClassInfo {
        name: surface.name.clone()?,
        fields,
        units,
    })
}

/// The classes and interfaces of a program.
pub(crate) fn class_infos(
    alloc: Global,
    numbers: &NameNumbers<'_>,
    units: &[&BoundUnit],
    surfaces: &[&Surface],
) -> Result<Items<ClassInfo>, OutOfMemory>
    requires { HasNumbers numbers.now.units (spec.unit_place (units_lent units.now)) }
    ensures { IfOk result (λ infos. infos ≡ map (spec.class_info (numbers_as numbers.now) (units_lent units.now)) (surfaces_lent surfaces.now)) }
{
    let mut infos = Items::new(alloc);
    for surface in surfaces {
        infos.push(class_info(alloc, numbers, units, surface)?)?;
    }
    Ok(infos)
}

fn is_main(member: &MemberFace) -> bool
    ensures { result ≡ spec.is_main member.now }
{
    member
        .params
        .as_slice()
        .iter()
        .any(|param| matches!(param.ty, FaceTy::Args))
}

fn has_main(surface: &Surface) -> bool
    ensures { result ≡ spec.has_main surface.now }
{
    surface
        .members
        .as_slice()
        .iter()
        .any(|member| is_main(member))
}

/// The numbers of the classes with a main.
pub(crate) fn mains_of(alloc: Global, surfaces: &[&Surface]) -> Result<Items<ClassId>, OutOfMemory>
    ensures { IfOk result (λ mains. mains ≡ spec.mains_from 0 (surfaces_lent surfaces.now)) }
{
    let mut mains = Items::new(alloc);
    for (at, surface) in surfaces.iter().enumerate() {
        if has_main(surface) {
            mains.push(short(at)?)?;
        }
    }
    Ok(mains)
}
