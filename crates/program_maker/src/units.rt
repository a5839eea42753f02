//! The code of a program's units.

ghost use Rattle.std.specs.Prelude.{◌≡◌, ◌+◌, ◌<◌, ◌≤◌, map, IfOk};
ghost use Rattle.bound_tree.specs.Reading.{statement_of, statements_of};
ghost use Rattle.program_maker.specs.Kept.{numbers_as, units_lent};
ghost use Rattle.program_maker.specs.Locals as spec;
ghost use Rattle.program_maker.specs.Program as program;

use crate::numbering::short;
use crate::numbers::NameNumbers;
use bound_tree::{Body, Part, Stmt};
use bound_unit::BoundUnit;
use core_model::UnitCode;
use desk_base::{Items, Name, OutOfMemory, Text};
use std::alloc::Global;
use views::{Surfaces, view_of};

fn sum(one: usize, other: usize) -> Result<usize, OutOfMemory>
    ensures { IfOk result (λ sum. sum ≡ one + other) }
{
    one.checked_add(other).ok_or(OutOfMemory)
}

/// How many locals a statement declares.
#[cycle(declared)]
#[tactic(auto, using(bound_tree::proofs::Readings::readings))]
fn declared(stmt: &Stmt) -> Result<usize, OutOfMemory>
    ensures { IfOk result (λ count. count ≡ spec.declared (statement_of stmt.now)) }
{
    match stmt {
        Stmt::Block(list) => declared_in(list.as_slice()),
        Stmt::Declare(_, _, _, _) => Ok(1),
        Stmt::If(_, yes, no) => {
            let first = declared(yes.get())?;
            let second = declared(no.get())?;
            sum(first, second)
        }
        Stmt::While(_, body) => declared(body.get()),
        Stmt::Sync(_, body) => declared(body.get()),
        Stmt::SyncClass(_, _, body) => declared(body.get()),
        Stmt::Assign(_, _)
        | Stmt::Compound(_, _, _)
        | Stmt::Perform(_)
        | Stmt::Start(_, _)
        | Stmt::Return(_)
        | Stmt::ReturnValue(_, _) => Ok(0),
    }
}

/// How many locals the statements declare.
#[cycle(declared)]
fn declared_in(list: &[Stmt]) -> Result<usize, OutOfMemory>
    ensures { IfOk result (λ count. count ≡ spec.declared_all (statements_of list.now)) }
{
    let mut count = 0;
    for stmt in list {
        count = sum(count, declared(stmt)?)?;
    }
    Ok(count)
}

/// How many parameters the class's member of the key has.
fn param_count(surfaces: &Surfaces, class: &Name, key: &Text) -> usize
    ensures { result ≡ spec.param_count surfaces.now class.now key.now }
{
    if !surfaces.has(class) {
        return 0;
    }
    let view = view_of(surfaces, class);
    match view.member(class, key) {
        Some(member) => member.params.len(),
        None => 0,
    }
}

fn this_count(is_static: bool) -> usize
    ensures { result ≡ spec.this_count is_static }
{
    if is_static { 0 } else { 1 }
}

fn body_locals(count: usize, body: &Body) -> Result<usize, OutOfMemory>
    ensures { IfOk result (λ locals. locals ≡ spec.this_count body.now.is_static + count + spec.declared (statement_of body.now.block)) }
{
    let given = sum(this_count(body.is_static), count)?;
    sum(given, declared(&body.block)?)
}

/// How many locals a unit of so many parameters has.
fn part_locals(count: usize, part: &Part) -> Result<usize, OutOfMemory>
    ensures { IfOk result (λ locals. locals ≡ spec.part_locals count part.now) }
{
    match part {
        Part::Header(_) | Part::Field(_, _) => Ok(0),
        Part::Sig(_, _) => sum(1, count),
        Part::Body(body) => body_locals(count, body),
    }
}

fn is_static(part: &Part) -> bool
    ensures { result ≡ spec.is_static_part part.now }
{
    match part {
        Part::Header(_) | Part::Field(_, _) => true,
        Part::Sig(_, _) => false,
        Part::Body(body) => body.is_static,
    }
}

fn unit_code(
    alloc: Global,
    numbers: &NameNumbers<'_>,
    surfaces: &Surfaces,
    unit: &BoundUnit,
) -> Result<UnitCode, OutOfMemory>
    ensures { IfOk result (λ code. code ≡ program.unit_code (numbers_as numbers.now) surfaces.now unit.now) }
{
    let tree = unit.tree();
    let count = param_count(surfaces, &tree.class, unit.key());
    let locals = short(part_locals(count, &tree.part)?)?;
    let code = numbers.code(alloc, unit.code())?;
    Ok(UnitCode {
        key: unit.key().clone()?,
        class: numbers.class(tree.class.as_slice()),
        is_static: is_static(&tree.part),
        locals,
        code,
    })
}

/// The code of a program's units.
pub(crate) fn unit_codes(
    alloc: Global,
    numbers: &NameNumbers<'_>,
    surfaces: &Surfaces,
    units: &[&BoundUnit],
) -> Result<Items<UnitCode>, OutOfMemory>
    ensures { IfOk result (λ codes. codes ≡ map (program.unit_code (numbers_as numbers.now) surfaces.now) (units_lent units.now)) }
{
    let mut codes = Items::new(alloc);
    for unit in units {
        codes.push(unit_code(alloc, numbers, surfaces, unit)?)?;
    }
    Ok(codes)
}
