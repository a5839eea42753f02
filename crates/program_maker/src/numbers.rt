//! The numbers of all names of a program.

ghost use Rattle.std.specs.Prelude.{◌≡◌, ℕ, List, flat_map, IfOk, OnOk};
ghost use Rattle.bound_tree.specs.Reading.{statement_of};
ghost use Rattle.program_maker.specs.Kept.{AreNumbers, FieldsNumbered, surfaces_lent, units_lent};
ghost use Rattle.program_maker.specs.Naming.{class_place, field_place, member_name, member_names, names_of_members, texts_of};
ghost use Rattle.program_maker.specs.Numbered.{AreSeen, HasNumbers};
ghost use Rattle.program_maker.specs.Program.{unit_place};
ghost use Rattle.program_maker.specs.Seen.{Name, seen_after};
ghost use Rattle.program_maker.specs.Texts as spec;

use crate::numbering::{SeenNames, put_first, short};
use bound_tree::{Initial, Part};
use bound_unit::BoundUnit;
use class_faces::FieldFace;
use desk_base::{Items, OutOfMemory, Text};
use lowering::{Constant, NamedCode, NamedInstr, NamedPlain};
use promise_scrub::Surface;
use std::alloc::Global;
use std::collections::BTreeMap;

/// The numbers of a program's names: those of classes, of each class's fields among those of their
/// kind, of the names of members, of texts, and of units by their keys.
#[derive(Drop)]
pub(crate) struct NameNumbers<'a> {
    pub(crate) classes: BTreeMap<&'a [u8], u32>,
    pub(crate) fields: Items<BTreeMap<&'a [u8], u32>>,
    pub(crate) members: SeenNames<'a>,
    pub(crate) texts: SeenNames<'a>,
    pub(crate) units: BTreeMap<&'a [u8], u32>,
}

fn number_classes<'a>(
    alloc: Global,
    surfaces: &[&'a Surface],
) -> Result<BTreeMap<&'a [u8], u32>, OutOfMemory>
    ensures { IfOk result (λ numbers. HasNumbers numbers (class_place (surfaces_lent surfaces.now))) }
{
    let mut numbers = BTreeMap::new(alloc);
    for (at, surface) in surfaces.iter().enumerate() {
        put_first(&mut numbers, surface.name.as_slice(), short(at)?)?;
    }
    Ok(numbers)
}

/// The places of a class's fields among those of their kind.
fn number_fields<'a>(
    alloc: Global,
    fields: &'a [FieldFace],
) -> Result<BTreeMap<&'a [u8], u32>, OutOfMemory>
    ensures { IfOk result (λ numbers. HasNumbers numbers (field_place fields.now)) }
{
    let mut numbers = BTreeMap::new(alloc);
    let mut statics = 0;
    let mut others = 0;
    for field in fields {
        if field.is_static {
            put_first(&mut numbers, field.name.as_slice(), short(statics)?)?;
            statics += 1;
        } else {
            put_first(&mut numbers, field.name.as_slice(), short(others)?)?;
            others += 1;
        }
    }
    Ok(numbers)
}

fn number_all_fields<'a>(
    alloc: Global,
    surfaces: &[&'a Surface],
) -> Result<Items<BTreeMap<&'a [u8], u32>>, OutOfMemory>
    ensures { IfOk result (λ numbers. FieldsNumbered numbers (surfaces_lent surfaces.now)) }
{
    let mut numbers = Items::new(alloc);
    for surface in surfaces {
        numbers.push(number_fields(alloc, surface.fields.as_slice())?)?;
    }
    Ok(numbers)
}

/// The name in a member's key.
pub(crate) fn name_in(key: &Text) -> &str
    ensures { result.now ≡ member_name key.now }
{
    let short = match key.as_str().split_once('.') {
        Some((_, short)) => short,
        None => "",
    };
    match short.split_once('/') {
        Some((name, _)) => name,
        None => short,
    }
}

fn see_members<'a>(names: &mut SeenNames<'a>, surface: &'a Surface) -> Result<(), OutOfMemory>
    ensures { OnOk result ((before : List Name) → AreSeen names.old before → AreSeen names.new (seen_after before (names_of_members surface.now))) }
{
    for member in surface.members.as_slice() {
        names.see(name_in(&member.key).as_bytes())?;
    }
    Ok(())
}

fn see_all_members<'a>(
    alloc: Global,
    surfaces: &[&'a Surface],
) -> Result<SeenNames<'a>, OutOfMemory>
    ensures { IfOk result (λ names. AreSeen names (member_names (surfaces_lent surfaces.now))) }
{
    let mut names = SeenNames::new(alloc);
    names.see(b"new")?;
    names.see(b"main")?;
    names.see(b"run")?;
    for surface in surfaces {
        see_members(&mut names, surface)?;
    }
    Ok(names)
}

fn see_constant<'a>(names: &mut SeenNames<'a>, constant: &'a Constant) -> Result<(), OutOfMemory>
    ensures { OnOk result ((before : List Name) → AreSeen names.old before → AreSeen names.new (seen_after before (spec.constant_texts constant.now))) }
{
    match constant {
        Constant::Text(text) => names.see(text.as_slice()),
        Constant::Int(_) | Constant::Boolean(_) | Constant::Null => Ok(()),
    }
}

fn see_plain<'a>(names: &mut SeenNames<'a>, plain: &'a NamedPlain) -> Result<(), OutOfMemory>
    ensures { OnOk result ((before : List Name) → AreSeen names.old before → AreSeen names.new (seen_after before (spec.plain_texts plain.now))) }
{
    match plain {
        NamedPlain::Const(constant) => see_constant(names, constant),
        _ => Ok(()),
    }
}

#[cycle(texts)]
fn see_instr<'a>(names: &mut SeenNames<'a>, instr: &'a NamedInstr) -> Result<(), OutOfMemory>
    ensures { OnOk result ((before : List Name) → AreSeen names.old before → AreSeen names.new (seen_after before (spec.instr_texts instr.now))) }
{
    match instr {
        NamedInstr::Do(_, plain) => see_plain(names, plain),
        NamedInstr::If(_, yes, no) => {
            see_code(names, yes)?;
            see_code(names, no)?;
            Ok(())
        }
        NamedInstr::While(_, condition, body) => {
            see_code(names, condition)?;
            see_code(names, body)?;
            Ok(())
        }
        NamedInstr::Enter(_, block) => see_code(names, block),
        NamedInstr::EnterClass(_, _, block) => see_code(names, block),
    }
}

#[cycle(texts)]
fn see_code<'a>(names: &mut SeenNames<'a>, code: &'a NamedCode) -> Result<(), OutOfMemory>
    ensures { OnOk result ((before : List Name) → AreSeen names.old before → AreSeen names.new (seen_after before (spec.code_texts code.now))) }
{
    let instrs = code.instrs();
    let mut at = instrs.len();
    while at > 0 {
        at -= 1;
        see_instr(names, &instrs[at])?;
    }
    Ok(())
}

fn see_part<'a>(names: &mut SeenNames<'a>, part: &'a Part) -> Result<(), OutOfMemory>
    ensures { OnOk result ((before : List Name) → AreSeen names.old before → AreSeen names.new (seen_after before (spec.part_texts part.now))) }
{
    match part {
        Part::Field(_, Initial::Str(text)) => names.see(text.as_slice()),
        _ => Ok(()),
    }
}

fn see_unit<'a>(names: &mut SeenNames<'a>, unit: &'a BoundUnit) -> Result<(), OutOfMemory>
    ensures { OnOk result ((before : List Name) → AreSeen names.old before → AreSeen names.new (seen_after before (spec.unit_texts unit.now))) }
{
    see_part(names, &unit.tree().part)?;
    see_code(names, unit.code())?;
    Ok(())
}

fn see_all_texts<'a>(alloc: Global, units: &[&'a BoundUnit]) -> Result<SeenNames<'a>, OutOfMemory>
    ensures { IfOk result (λ texts. AreSeen texts (texts_of (units_lent units.now))) }
{
    let mut texts = SeenNames::new(alloc);
    for unit in units {
        see_unit(&mut texts, unit)?;
    }
    Ok(texts)
}

/// The numbers of units by their keys.
fn number_units<'a>(
    alloc: Global,
    units: &[&'a BoundUnit],
) -> Result<BTreeMap<&'a [u8], u32>, OutOfMemory>
    ensures { IfOk result (λ numbers. HasNumbers numbers (unit_place (units_lent units.now))) }
{
    let mut numbers = BTreeMap::new(alloc);
    for (at, unit) in units.iter().enumerate() {
        put_first(&mut numbers, unit.key().as_str().as_bytes(), short(at)?)?;
    }
    Ok(numbers)
}

impl<'a> NameNumbers<'a> {
    /// The numbers of the names of these types and units.
    pub(crate) fn of(
        alloc: Global,
        surfaces: &[&'a Surface],
        units: &[&'a BoundUnit],
    ) -> Result<NameNumbers<'a>, OutOfMemory>
        ensures { IfOk result (λ numbers. AreNumbers numbers (surfaces_lent surfaces.now) (units_lent units.now)) }
    {
        let classes = number_classes(alloc, surfaces)?;
        let fields = number_all_fields(alloc, surfaces)?;
        let members = see_all_members(alloc, surfaces)?;
        let texts = see_all_texts(alloc, units)?;
        let units = number_units(alloc, units)?;
        Ok(NameNumbers {
            classes,
            fields,
            members,
            texts,
            units,
        })
    }
}
