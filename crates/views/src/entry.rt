use crate::items::item_at;
use crate::promises::{PromisePlaces, places_of};
use crate::regions::{Regions, regions_of};
use crate::shape::{Shape, shape_of};
use crate::unit_promises::UnitPromises;
use class_faces::{FieldFace, MemberFace};
use desk_base::{Name, OutOfMemory, PromiseKey, Text};
use promise_grammar::LockHolder;
use promise_scrub::{Assumption, Standing, Surface};
use std::alloc::Global;
use std::marker::Model;

/// A surface with the places of its parts, which are found once. Contracts see the surface.
#[derive(Drop)]
pub(crate) struct Entry {
    surface: Surface,
    shape: Shape,
    places: PromisePlaces,
    regions: Regions,
}

impl Model for Entry {
    ghost use Rattle.promise_scrub.specs.declared.surface.Surface.{Surface as Face};
    ghost use Rattle.views.specs.Indexed.{IsIndexed};
    ghost use Rattle.promise_scrub.specs.contracts.surface.Surface as face;

    ghost Value = { Face };

    ghost coded = { face.the_row.coded };

    ghost view = { λ e. e.surface };

    ghost invariant = { λ e. IsIndexed e.surface e.shape e.places e.regions };
}

impl Entry {
    ghost use Rattle.std.specs.Prelude.{◌≡◌, ◌↔◌, ◌&&◌, not, IsTrue, IfOk, Some, filter, find};
    ghost use Rattle.std.specs.List.{list_any};
    ghost use Rattle.std.specs.Option.{option_copied};
    ghost use Rattle.region_tree.specs.Regions.{kind_of};
    ghost use Rattle.views.specs.Face.{RegionsStand, has_member, stands};
    ghost use Rattle.views.specs.Indexed.{FieldUnderIn, constructor_is};
    ghost use Rattle.views.specs.Indexes.{assumption_is, field_is, lock_is, member_is, name_is, standing_is, stands_at};
    ghost use Rattle.views.specs.Looks.{UnderIn, constructor_front, is_static_field, is_static_holder};

    /// The surface, moved, with the places of its parts.
    pub(crate) fn new(alloc: Global, surface: Surface) -> Result<Entry, OutOfMemory>
        requires { RegionsStand surface.regions }
        ensures { IfOk result (λ entry. entry ≡ surface) }
    {
        let shape = shape_of(alloc, &surface)?;
        let places = places_of(alloc, &surface)?;
        let regions = regions_of(alloc, &surface)?;
        Ok(Entry {
            surface,
            shape,
            places,
            regions,
        })
    }

    pub(crate) fn surface(&self) -> &Surface
        ensures { result.now ≡ self.now }
    {
        &self.surface
    }

    /// Whether the class implements the interface by name.
    pub(crate) fn implements(&self, interface: &Name) -> bool
        ensures { result ≡ list_any (name_is interface.now) self.now.implements }
    {
        self.shape.implements.contains_key(interface)
    }

    /// The first field of the name.
    pub(crate) fn field(&self, name: &Name) -> Option<&FieldFace>
        ensures { option_copied result ≡ find (field_is name.now) self.now.fields }
    {
        item_at(&self.surface.fields, self.shape.fields.get(name))
    }

    /// The first member of the key.
    pub(crate) fn member(&self, key: &Text) -> Option<&MemberFace>
        ensures { option_copied result ≡ find (member_is key.now) self.now.members }
    {
        item_at(&self.surface.members, self.shape.members.get(key))
    }

    /// The first constructor.
    pub(crate) fn constructor(&self) -> Option<&MemberFace>
        ensures { option_copied result ≡ find (constructor_is (constructor_front self.now.name)) self.now.members }
    {
        item_at(&self.surface.members, self.shape.constructor.as_ref())
    }

    /// The first promise of the key that stands.
    pub(crate) fn standing(&self, key: &PromiseKey) -> Option<&Standing>
        ensures { option_copied result ≡ find (standing_is key.now) self.now.standing }
    {
        item_at(&self.surface.standing, self.places.standing.get(key))
    }

    /// The first promise of the key that the class assumes.
    pub(crate) fn assumption(&self, key: &PromiseKey) -> Option<&Assumption>
        ensures { option_copied result ≡ find (assumption_is key.now) self.now.assumptions }
    {
        item_at(&self.surface.assumptions, self.places.assumed.get(key))
    }

    /// The first promise that gives a lock of the name.
    pub(crate) fn lock(&self, name: &Name) -> Option<&Standing>
        ensures { option_copied result ≡ find (lock_is name.now) self.now.standing }
    {
        item_at(&self.surface.standing, self.places.locks.get(name))
    }

    /// The promises that stand at the unit.
    pub(crate) fn promises_at(&self, unit: &Text) -> UnitPromises<'_>
        ensures { result ≡ filter (stands_at unit.now) self.now.standing }
    {
        match self.places.units.get(unit) {
            Some(places) => UnitPromises::new(self.surface.standing.as_slice(), places.as_slice()),
            None => UnitPromises::new(self.surface.standing.as_slice(), &[]),
        }
    }

    /// Whether the unit is vouched for.
    pub(crate) fn is_vouched(&self, unit: &Text) -> bool
        ensures { result ≡ list_any (name_is unit.now) self.now.vouched }
    {
        self.places.vouched.contains_key(unit)
    }

    fn has_member(&self, key: &Text) -> bool
        ensures { result ≡ has_member self.now.members key.now }
    {
        self.shape.members.contains_key(key)
    }

    fn stands(&self, key: &PromiseKey) -> bool
        ensures { result ≡ stands self.now.standing key.now }
    {
        self.places.standing.contains_key(key)
    }

    /// Whether a promise of the key that is assumed has effect: it is about a member that is here and
    /// doesn't have it itself.
    pub(crate) fn takes_effect(&self, key: &PromiseKey) -> bool
        ensures { result ≡ (has_member self.now.members key.now.target && not (stands self.now.standing key.now)) }
    {
        self.has_member(&key.target) && !self.stands(key)
    }

    /// Whether a lock by the holder is static.
    pub(crate) fn is_static_holder(&self, holder: &LockHolder) -> bool
        ensures { result ≡ is_static_holder self.now.fields holder.now }
    {
        match holder {
            LockHolder::This => false,
            LockHolder::Class => true,
            LockHolder::Field(name) => self.is_static_field(name),
            LockHolder::ThisField(name) => self.is_static_field(name),
        }
    }

    fn is_static_field(&self, name: &Name) -> bool
        ensures { result ≡ is_static_field (find (field_is name.now) self.now.fields) }
    {
        match self.field(name) {
            Some(field) => field.is_static,
            None => false,
        }
    }

    /// Whether the region of the name is static, where there is one.
    pub(crate) fn region_kind(&self, region: &Name) -> Option<bool>
        ensures { result ≡ kind_of self.now.regions region.now }
    {
        self.regions
            .kind_of(self.surface.regions.as_slice(), region)
    }

    /// Whether region `a` is under region `b`.
    pub(crate) fn region_is_under(&self, a: &Name, b: &Name) -> bool
        ensures { IsTrue result ↔ UnderIn (Some self.now.regions) a.now b.now }
    {
        let tree = &self.regions.tree;
        match (tree.region(a), tree.region(b)) {
            (Some(a), Some(b)) => tree.is_under(a, b),
            _ => false,
        }
    }

    /// Whether the region of the first field of the name is under the region.
    pub(crate) fn field_is_under(&self, field: &Name, region: &Name) -> bool
        ensures { IsTrue result ↔ FieldUnderIn self.now field.now region.now }
    {
        match self.shape.fields.get(field) {
            Some(at) => self.regions.field_is_under(*at, region),
            None => false,
        }
    }
}
