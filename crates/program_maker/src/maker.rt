//! A program as it is made of units that are added one after another.

ghost use Rattle.std.specs.Prelude.{◌≡◌, [], ◌∷◌, ◌++◌, IfOk, OnErr, OnOk};
ghost use Rattle.std.specs.List.{list_any};
ghost use Rattle.program_maker.specs.Kept.{surfaces_lent, units_lent};
ghost use Rattle.program_maker.specs.Naming.{standing_names};
ghost use Rattle.program_maker.specs.Numbered.{lent};
ghost use Rattle.program_maker.specs.Program as spec;

use crate::classes::{class_infos, mains_of};
use crate::numbers::NameNumbers;
use crate::units::unit_codes;
use bound_unit::BoundUnit;
use core_model::Program;
use desk_base::{Items, Name, OutOfMemory};
use std::alloc::Global;
use std::marker::Model;
use views::Surfaces;

/// A program that is being made: the surfaces of a project's types, and the units that were added so
/// far. Both are lent to it.
#[derive(Drop)]
pub struct ProgramMaker<'a> {
    alloc: Global,
    surfaces: &'a Surfaces,
    units: Items<&'a BoundUnit>,
}

impl<'a> Model for ProgramMaker<'a> {
    ghost use Rattle.std.specs.Coded.{codes};
    ghost use Rattle.bound_tree.specs.contracts.unit.BoundTree as bound;
    ghost use Rattle.lowering.specs.CodeCoded.{coded_code};
    ghost use Rattle.promise_scrub.specs.contracts.surface.Surface as shown;
    ghost use Rattle.result_records.specs.contracts.finding.Finding as found;
    ghost use Rattle.program_maker.specs.Parts.{Parts};
    ghost use Rattle.program_maker.specs.Kept.{units_lent};

    ghost Value = { Parts };

    ghost coded = { Prim.hlevel (codes, shown.the_row.coded, bound.the_row.coded, found.the_row.coded, coded_code) };

    ghost view = { λ m. record { surfaces = m.surfaces.now; units = units_lent m.units } };
}

fn has_findings(unit: &BoundUnit) -> bool
    ensures { result ≡ spec.has_findings unit.now }
{
    !unit.bind_findings().is_empty()
}

fn any_findings(units: &[&BoundUnit]) -> bool
    ensures { result ≡ list_any spec.has_findings (units_lent units.now) }
{
    for unit in units {
        if has_findings(unit) {
            return true;
        }
    }
    false
}

fn copied_names(alloc: Global, names: &[&[u8]]) -> Result<Items<Name>, OutOfMemory>
    ensures { IfOk result (λ copies. copies ≡ lent names.now) }
{
    let mut copies = Items::new(alloc);
    for name in names {
        copies.push(Name::from_slice(alloc, name)?)?;
    }
    Ok(copies)
}

/// The program without classes, units and mains. It has the names that every program has.
fn empty_program(alloc: Global) -> Result<Program, OutOfMemory>
    ensures { IfOk result (λ program. program ≡ spec.empty_program) }
{
    let members = copied_names(alloc, &[b"new", b"main", b"run"])?;
    Ok(Program {
        classes: Items::new(alloc),
        units: Items::new(alloc),
        mains: Items::new(alloc),
        members,
    })
}

/// The program of the types and units, none of which has a bind finding.
fn whole_program<'a>(
    alloc: Global,
    surfaces: &'a Surfaces,
    units: &[&'a BoundUnit],
) -> Result<Program, OutOfMemory>
    ensures { IfOk result (λ program. program ≡ spec.whole_program surfaces.now (units_lent units.now)) }
{
    let types = surfaces.in_order()?;
    let numbers = NameNumbers::of(alloc, types.as_slice(), units)?;
    let classes = class_infos(alloc, &numbers, units, types.as_slice())?;
    let codes = unit_codes(alloc, &numbers, surfaces, units)?;
    let mains = mains_of(alloc, types.as_slice())?;
    let members = copied_names(alloc, numbers.members.names.as_slice())?;
    Ok(Program {
        classes,
        units: codes,
        mains,
        members,
    })
}

/// Begins a program of these types, so far without units. Its one error is want of memory.
pub fn program_of<'a>(
    alloc: Global,
    surfaces: &'a Surfaces,
) -> Result<ProgramMaker<'a>, OutOfMemory>
    ensures { IfOk result (λ maker. maker ≡ record { surfaces = surfaces.now; units = [] }) }
{
    Ok(ProgramMaker {
        alloc,
        surfaces,
        units: Items::new(alloc),
    })
}

impl<'a> ProgramMaker<'a> {
    /// Appends the unit. For want of memory nothing changes.
    pub fn add(&mut self, unit: &'a BoundUnit) -> Result<(), OutOfMemory>
        ensures ok { OnOk result (self.new ≡ record { surfaces = self.old.surfaces; units = self.old.units ++ unit.now ∷ [] }) }
        ensures err { OnErr result (self.new ≡ self.old) }
    {
        self.units.push(unit)?;
        Ok(())
    }

    /// The program of the units that were added: the classes and interfaces in order of name, with
    /// their fields and members in written order, the code of the units in the order in which they
    /// were added, with one numbering of names for all of them, and the classes that have a main.
    /// Where any of the units has a bind finding it is the empty program. Its one error is want of
    /// memory.
    pub fn finish(self) -> Result<Program, OutOfMemory>
        ensures { IfOk result (λ program. program ≡ spec.program_of self.entry.surfaces self.entry.units) }
    {
        let units = self.units.as_slice();
        if any_findings(units) {
            return empty_program(self.alloc);
        }
        whole_program(self.alloc, self.surfaces, units)
    }
}
