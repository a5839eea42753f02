//! The units of a project, bound.

use anyhow::{Result, bail};
use binder::bind_keyed;
use bound_unit::BoundUnit;
use class_faces::{member_keys, text_of};
use desk_base::Name;
use java_reader::read_file;
use java_tree::ClassTree;
use promise_scrub::surface_of;
use std::alloc::Global;
use views::{Surfaces, View, surface_regions_stand, view_of};

/// What the types of a project show, and its units in the order of their keys.
#[derive(Drop)]
pub(crate) struct Project {
    pub(crate) surfaces: Surfaces,
    pub(crate) units: Vec<BoundUnit>,
}

/// Puts the surfaces of classes to the others.
pub(crate) fn add_surfaces(
    alloc: Global,
    surfaces: &mut Surfaces,
    classes: &[ClassTree],
) -> Result<()> {
    surface_regions_stand();
    for class in classes {
        let surface = surface_of(alloc, class)?;
        surfaces.add(surface)?;
    }
    Ok(())
}

/// The view of the class of the name.
pub(crate) fn class_view<'a>(surfaces: &'a Surfaces, class: &Name) -> Result<View<'a>> {
    if !surfaces.has(class) {
        bail!("no such class");
    }
    Ok(view_of(surfaces, class))
}

fn bind_class(
    alloc: Global,
    view: &View<'_>,
    class: &ClassTree,
    units: &mut Vec<BoundUnit>,
) -> Result<()> {
    let key = text_of(alloc, class.name.text.as_slice())?;
    units.push(bind_keyed(alloc, class, None, key, view)?)?;
    let keys = member_keys(alloc, class)?;
    for (member, key) in class.members.as_slice().iter().zip(keys.as_slice()) {
        units.push(bind_keyed(alloc, class, Some(member), key.clone()?, view)?)?;
    }
    Ok(())
}

/// Binds the units of classes, whose surfaces are there.
pub(crate) fn bind_classes(
    alloc: Global,
    surfaces: &Surfaces,
    classes: &[ClassTree],
    units: &mut Vec<BoundUnit>,
) -> Result<()> {
    for class in classes {
        let view = class_view(surfaces, &class.name.text)?;
        bind_class(alloc, &view, class, units)?;
    }
    Ok(())
}

fn surfaces_of(alloc: Global, classes: &[ClassTree]) -> Result<Surfaces> {
    let mut surfaces = Surfaces::new(alloc)?;
    add_surfaces(alloc, &mut surfaces, classes)?;
    Ok(surfaces)
}

fn units_of(alloc: Global, surfaces: &Surfaces, classes: &[ClassTree]) -> Result<Vec<BoundUnit>> {
    let mut units = Vec::new(alloc);
    bind_classes(alloc, surfaces, classes, &mut units)?;
    units.sort_by(|a, b| a.key().cmp(b.key()))?;
    Ok(units)
}

fn project_in(alloc: Global, classes: &[ClassTree]) -> Result<Project> {
    let surfaces = surfaces_of(alloc, classes)?;
    let units = units_of(alloc, &surfaces, classes)?;
    Ok(Project { surfaces, units })
}

/// The project of one Java file.
pub(crate) fn project_of(alloc: Global, text: &str) -> Result<Project> {
    let file = read_file(alloc, text.as_bytes())?;
    project_in(alloc, file.types.as_slice())
}

impl Project {
    /// The unit of the key.
    pub(crate) fn unit(&self, key: &str) -> Result<&BoundUnit> {
        for unit in self.units.as_slice() {
            if unit.key().as_str() == key {
                return Ok(unit);
            }
        }
        bail!("no unit {key}")
    }

    /// Whether no unit has a bind finding.
    pub(crate) fn binds(&self) -> bool {
        for unit in self.units.as_slice() {
            if !unit.bind_findings().is_empty() {
                return false;
            }
        }
        true
    }
}
