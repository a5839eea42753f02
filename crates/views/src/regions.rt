ghost use Rattle.std.specs.Prelude.{◌≡◌, IfOk};
ghost use Rattle.std.specs.Option.{option_copied};
ghost use Rattle.views.specs.Face.{RegionsStand};
ghost use Rattle.views.specs.Indexed.{AreRegions, IsTree, field_regions};
ghost use Rattle.views.specs.Indexes.{PutsFrom};
ghost use Rattle.views.specs.Looks as spec;
ghost use Rattle.region_tree.specs.Regions.{name_or_root};
ghost use Rattle.views.specs.Roots.{AreRoots};

use crate::contents::region_content;
use crate::firsts::index_puts;
use crate::items::item_at;
use class_faces::{FieldFace, text_of};
use desk_base::{Bytes, Items, Name, OutOfMemory, Text};
use promise_scrub::{RegionDecl, Standing, Surface};
use region_tree::{RegionError, RegionId, RegionTree, build, kind_of_number, number_names};
use std::alloc::Global;
use std::collections::BTreeMap;

/// The regions of a surface with their numbers by name, and the region of each of its fields, where
/// that is there.
#[derive(Drop)]
pub(crate) struct Regions {
    pub(crate) tree: RegionTree,
    pub(crate) numbers: BTreeMap<Name, usize>,
    pub(crate) of_fields: Items<Option<RegionId>>,
}

/// The names of the roots.
#[derive(Drop)]
pub(crate) struct Roots {
    instance: Name,
    class: Name,
}

fn root_names(alloc: Global) -> Result<Roots, OutOfMemory>
    ensures { IfOk result AreRoots }
{
    let instance = Name::from_slice(alloc, b"Instance")?;
    let class = Name::from_slice(alloc, b"Static")?;
    Ok(Roots { instance, class })
}

fn tree_of(alloc: Global, declared: &[RegionDecl]) -> Result<RegionTree, OutOfMemory>
    requires { RegionsStand declared.now }
    ensures { IfOk result (IsTree declared.now) }
{
    match build(alloc, declared, &[]) {
        Ok(tree) => Ok(tree),
        Err(RegionError::OutOfMemory) => Err(OutOfMemory),
        Err(_) => unreachable!(),
    }
}

fn field_key(alloc: Global, class: &Name, field: &Name) -> Result<Text, OutOfMemory>
    ensures { IfOk result (λ key. key ≡ spec.field_key class.now field.now) }
{
    let mut key = Bytes::from_slice(alloc, class.as_slice())?;
    key.append(b".")?;
    key.append(field.as_slice())?;
    text_of(alloc, key.as_slice())
}

/// The region that is named for the field of the key.
fn region_named<'a>(
    standing: &'a Items<Standing>,
    puts: &BTreeMap<Text, usize>,
    key: &Text,
) -> Option<&'a Name>
    requires { PutsFrom puts.now 0 standing.now }
    ensures { option_copied result ≡ spec.region_named standing.now key.now }
{
    match item_at(standing, puts.get(key)) {
        Some(promise) => region_content(promise),
        None => None,
    }
}

/// The name of a field's region.
fn name_of<'a>(named: Option<&'a Name>, roots: &'a Roots, is_static: bool) -> &'a Name
    requires { AreRoots roots.now }
    ensures { result.now ≡ name_or_root (option_copied named.entry) is_static }
{
    match named {
        Some(name) => name,
        None if is_static => &roots.class,
        None => &roots.instance,
    }
}

/// The regions of the fields of a class.
fn place_fields(
    alloc: Global,
    surface: &Surface,
    tree: &RegionTree,
) -> Result<Items<Option<RegionId>>, OutOfMemory>
    requires { IsTree surface.now.regions tree.now }
    ensures { IfOk result (λ ids. ids ≡ field_regions surface.now) }
{
    let roots = root_names(alloc)?;
    let puts = index_puts(alloc, surface.standing.as_slice())?;
    let mut ids = Items::new(alloc);
    for field in surface.fields.as_slice() {
        let key = field_key(alloc, &surface.name, &field.name)?;
        let named = region_named(&surface.standing, &puts, &key);
        let name = name_of(named, &roots, field.is_static);
        ids.push(tree.region(name))?;
    }
    Ok(ids)
}

/// The regions of a surface and of its fields.
pub(crate) fn regions_of(alloc: Global, surface: &Surface) -> Result<Regions, OutOfMemory>
    requires { RegionsStand surface.now.regions }
    ensures { IfOk result (AreRegions surface.now) }
{
    let numbers = number_names(alloc, surface.regions.as_slice())?;
    let tree = tree_of(alloc, surface.regions.as_slice())?;
    let of_fields = place_fields(alloc, surface, &tree)?;
    Ok(Regions {
        tree,
        numbers,
        of_fields,
    })
}

impl Regions {
    ghost use Rattle.std.specs.Prelude.{◌↔◌, IsTrue};
    ghost use Rattle.std.specs.List.{slice_get};
    ghost use Rattle.region_tree.specs.Names.{Numbered};
    ghost use Rattle.region_tree.specs.Regions.{kind_of};
    ghost use Rattle.views.specs.Indexed.{AllWithin, IdUnder};

    /// Whether the region of the name is static, where there is one.
    pub(crate) fn kind_of(&self, declared: &[RegionDecl], name: &Name) -> Option<bool>
        requires { Numbered self.now.numbers declared.now }
        ensures { result ≡ kind_of declared.now name.now }
    {
        match self.numbers.get(name) {
            Some(number) => kind_of_number(declared, *number),
            None => None,
        }
    }

    /// Whether the region of the field of this place is under the region.
    pub(crate) fn field_is_under(&self, at: usize, region: &Name) -> bool
        requires { AllWithin self.now }
        ensures { IsTrue result ↔ IdUnder self.now.tree (slice_get self.now.of_fields at) region.now }
    {
        match self.of_fields.get(at) {
            Some(Some(own)) => match self.tree.region(region) {
                Some(region) => self.tree.is_under(*own, region),
                None => false,
            },
            _ => false,
        }
    }
}
