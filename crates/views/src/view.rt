ghost use Rattle.std.specs.Prelude.{◌≡◌, IsSome};
ghost use Rattle.views.specs.Face.{surface_named};

use crate::entry::Entry;
use crate::kind::FaceKind;
use crate::surfaces::{Found, Surfaces};
use crate::unit_promises::UnitPromises;
use class_faces::{FieldFace, MemberFace};
use desk_base::{Name, PromiseKey, Text};
use promise_grammar::LockHolder;
use promise_scrub::{Assumption, Standing};
use std::marker::Model;

/// What a class sees of all types: their surfaces, and the promises that the class assumes where the
/// members don't have them. Contracts see the surfaces and the class.
#[derive(Drop)]
pub struct View<'a> {
    surfaces: &'a Surfaces,
    own: &'a Entry,
}

impl<'a> Model for View<'a> {
    ghost use Rattle.std.specs.Coded.{codes};
    ghost use Rattle.promise_scrub.specs.contracts.surface.Surface as shown;
    ghost use Rattle.views.specs.Face.{Seen};
    ghost use Rattle.views.specs.Seeing.{IsOwn};

    ghost Value = { Seen };

    ghost coded = { Prim.hlevel (codes, shown.the_row.coded) };

    ghost view = { λ v. record { surfaces = v.surfaces.now; class = v.own.now.name } };

    ghost invariant = { λ v. IsOwn v.surfaces.now v.own.now };
}

/// The view of a class, which is among the surfaces. It takes no memory.
pub fn view_of<'a>(surfaces: &'a Surfaces, class: &Name) -> View<'a>
    requires { IsSome (surface_named surfaces.now class.now) }
    ensures { result ≡ record { surfaces = surfaces.now; class = class.now } }
{
    match surfaces.entry(class) {
        Some(own) => View { surfaces, own },
        None => unreachable!(),
    }
}

impl<'a> View<'a> {
    ghost use Rattle.std.specs.Prelude.{◌↔◌, IsTrue, MatchOption, None, Some};
    ghost use Rattle.std.specs.Option.{option_copied};
    ghost use Rattle.views.specs.Face.{assumptions_of, face, face_of};
    ghost use Rattle.views.specs.Looks as look;
    ghost use Rattle.views.specs.Seeing.{IsDeclaredAs};

    /// The class whose view it is.
    pub fn class(&self) -> &Name
        ensures { result.now ≡ self.now.class }
    {
        &self.own.surface().name
    }

    fn find(&self, name: &Name) -> Option<Found<'_>>
        ensures { MatchOption result (face self.now name.now ≡ None) (λ f. face self.now name.now ≡ Some (face_of (assumptions_of self.now) self.now.class (record { kind = f.kind; surface = f.entry.now }))) }
    {
        self.surfaces.find(name)
    }

    /// What kind of type the name is the name of, where there is one.
    pub fn kind(&self, name: &Name) -> Option<FaceKind>
        ensures { result ≡ look.kind_in (face self.now name.now) }
    {
        match self.find(name) {
            Some(found) => Some(found.kind),
            None => None,
        }
    }

    /// The names that a class implements, in written order.
    pub fn interfaces(&self, class: &Name) -> &[Name]
        ensures { result.now ≡ look.interfaces_in (face self.now class.now) }
    {
        match self.find(class) {
            Some(found) => found.entry.surface().implements.as_slice(),
            None => &[],
        }
    }

    /// Whether a class implements an interface by name.
    pub fn implements(&self, class: &Name, interface: &Name) -> bool
        ensures { result ≡ look.implements_in (face self.now class.now) interface.now }
    {
        match self.find(class) {
            Some(found) => found.entry.implements(interface),
            None => false,
        }
    }

    /// The first field of the name.
    pub fn field(&self, class: &Name, name: &Name) -> Option<&FieldFace>
        ensures { option_copied result ≡ look.field_in (face self.now class.now) name.now }
    {
        match self.find(class) {
            Some(found) => found.entry.field(name),
            None => None,
        }
    }

    /// The first member of the key.
    pub fn member(&self, class: &Name, key: &Text) -> Option<&MemberFace>
        ensures { option_copied result ≡ look.member_in (face self.now class.now) key.now }
    {
        match self.find(class) {
            Some(found) => found.entry.member(key),
            None => None,
        }
    }

    /// The methods, interface methods, constructors and mains of a type, in written order.
    pub fn members(&self, class: &Name) -> &[MemberFace]
        ensures { result.now ≡ look.members_in (face self.now class.now) }
    {
        match self.find(class) {
            Some(found) => found.entry.surface().members.as_slice(),
            None => &[],
        }
    }

    /// The first constructor.
    pub fn constructor(&self, class: &Name) -> Option<&MemberFace>
        ensures { option_copied result ≡ look.constructor_in (face self.now class.now) }
    {
        match self.find(class) {
            Some(found) => found.entry.constructor(),
            None => None,
        }
    }

    /// The first promise of the key that stands.
    pub fn standing(&self, class: &Name, key: &PromiseKey) -> Option<&Standing>
        ensures { option_copied result ≡ look.standing_in (face self.now class.now) key.now }
    {
        match self.find(class) {
            Some(found) => found.entry.standing(key),
            None => None,
        }
    }

    /// The promises that stand at a unit of the type, in written order.
    pub fn standing_at(&self, class: &Name, unit: &Text) -> UnitPromises<'_>
        ensures { result ≡ look.standing_at (face self.now class.now) unit.now }
    {
        match self.find(class) {
            Some(found) => found.entry.promises_at(unit),
            None => UnitPromises::new(&[], &[]),
        }
    }

    /// The promise of the key that the view's class assumes, where the type has a member for it that
    /// doesn't have it itself.
    pub fn assumed(&self, class: &Name, key: &PromiseKey) -> Option<&Assumption>
        ensures { option_copied result ≡ look.assumed_in (face self.now class.now) key.now }
    {
        match self.find(class) {
            Some(found) => {
                if found.entry.takes_effect(key) {
                    self.own.assumption(key)
                } else {
                    None
                }
            }
            None => None,
        }
    }

    /// The first promise that gives a lock of the name.
    pub fn lock(&self, class: &Name, name: &Name) -> Option<&Standing>
        ensures { option_copied result ≡ look.lock_in (face self.now class.now) name.now }
    {
        match self.find(class) {
            Some(found) => found.entry.lock(name),
            None => None,
        }
    }

    /// Whether a lock of the class is static: the class holds it, or a static field.
    pub fn lock_is_static(&self, class: &Name, holder: &LockHolder) -> bool
        ensures { result ≡ look.static_lock_in (face self.now class.now) holder.now }
    {
        match self.find(class) {
            Some(found) => found.entry.is_static_holder(holder),
            None => false,
        }
    }

    /// Whether the unit is vouched for.
    pub fn is_vouched(&self, class: &Name, unit: &Text) -> bool
        ensures { result ≡ look.vouched_in (face self.now class.now) unit.now }
    {
        match self.find(class) {
            Some(found) => found.entry.is_vouched(unit),
            None => false,
        }
    }

    fn declared(&self, name: &Name) -> Option<&Entry>
        ensures { MatchOption result (look.regions_in (face self.now name.now) ≡ None) (λ e. IsDeclaredAs self.now name.now e.now) }
    {
        let found = self.find(name)?;
        if found.kind.is_declared() {
            Some(found.entry)
        } else {
            None
        }
    }

    /// Whether the region of the name is static, where the type has one. Declared types have the
    /// roots `Instance` and `Static`.
    pub fn region_kind(&self, class: &Name, region: &Name) -> Option<bool>
        ensures { result ≡ look.region_kind_in (face self.now class.now) region.now }
    {
        match self.declared(class) {
            Some(entry) => entry.region_kind(region),
            None => None,
        }
    }

    /// Whether region `a` of the type is under its region `b`.
    pub fn region_is_under(&self, class: &Name, a: &Name, b: &Name) -> bool
        ensures { IsTrue result ↔ look.RegionUnder (face self.now class.now) a.now b.now }
    {
        match self.declared(class) {
            Some(entry) => entry.region_is_under(a, b),
            None => false,
        }
    }

    /// Whether the first field of the name is there and its region is under the region.
    pub fn field_is_under(&self, class: &Name, field: &Name, region: &Name) -> bool
        ensures { IsTrue result ↔ look.FieldUnder (face self.now class.now) field.now region.now }
    {
        match self.declared(class) {
            Some(entry) => entry.field_is_under(field, region),
            None => false,
        }
    }
}
