ghost use Rattle.std.specs.Prelude.{◌≡◌};
ghost use Rattle.std.specs.List.{list_any};
ghost use Rattle.std.specs.Str.{bytes_eq};
ghost use Rattle.views.specs.Face.{face};
ghost use Rattle.unit_rules.specs.Shown as spec;

use bound_unit::member_key;
use class_faces::{FieldFace, MemberFace};
use desk_base::{Name, OutOfMemory};
use java_tree::TypeKind;
use name_rules::TypeTable;
use std::alloc::Global;
use std::marker::Model;
use views::{FaceKind, View};

fn declared_kind(kind: FaceKind) -> Option<TypeKind>
    ensures { result ≡ spec.declared_kind kind }
{
    match kind {
        FaceKind::Class => Some(TypeKind::Class),
        FaceKind::Interface => Some(TypeKind::Interface),
        FaceKind::Object => None,
        FaceKind::String => None,
        FaceKind::Runnable => None,
    }
}

fn is_among(names: &[Name], name: &[u8]) -> bool
    ensures { result ≡ list_any (λ n. bytes_eq n name.now) names.now }
{
    names.iter().any(|other| other.as_slice() == name)
}

/// The declared types that a view shows. Contracts see what the view is seen as.
#[derive(Drop)]
pub struct ViewTypes<'t> {
    view: &'t View<'t>,
}

impl<'t> Model for ViewTypes<'t> {
    ghost use Rattle.std.specs.Coded.{codes};
    ghost use Rattle.promise_scrub.specs.contracts.surface.Surface as shown;
    ghost use Rattle.views.specs.Face.{Seen};

    ghost Value = { Seen };

    ghost coded = { Prim.hlevel (codes, shown.the_row.coded) };

    ghost view = { λ t. t.view.now };
}

impl<'t> ViewTypes<'t> {
    ghost use Rattle.views.specs.Looks.{kind_in};

    /// Those of the view.
    pub fn new(view: &'t View<'t>) -> ViewTypes<'t>
        ensures { result ≡ view.now }
    {
        ViewTypes { view }
    }

    fn declared(&self, name: &Name) -> Option<TypeKind>
        ensures { result ≡ spec.kind_if_any (kind_in (face self.now name.now)) }
    {
        match self.view.kind(name) {
            Some(kind) => declared_kind(kind),
            None => None,
        }
    }

    fn declares(&self, name: &Name) -> bool
        ensures { result ≡ spec.declares (face self.now name.now) }
    {
        self.declared(name).is_some()
    }
}

#[tactic(auto, using(crate::proofs::Shows::shows))]
impl<'t> TypeTable for ViewTypes<'t> {
    ghost types = { λ seen. spec.types_shown (face seen) };

    fn kind(&self, name: &Name) -> Option<TypeKind> {
        self.declared(name)
    }

    fn lists(&self, class: &Name, interface: &[u8]) -> bool {
        self.declares(class) && is_among(self.view.interfaces(class), interface)
    }

    fn field(&self, class: &Name, name: &Name) -> Option<&FieldFace> {
        if self.declares(class) {
            self.view.field(class, name)
        } else {
            None
        }
    }

    fn method(
        &self,
        alloc: Global,
        class: &Name,
        name: &Name,
        count: usize,
    ) -> Result<Option<&MemberFace>, OutOfMemory> {
        if !self.declares(class) {
            return Ok(None);
        }
        let key = member_key(alloc, class, name.as_slice(), count)?;
        Ok(self.view.member(class, &key))
    }

    fn members(&self, class: &Name) -> &[MemberFace] {
        if self.declares(class) {
            self.view.members(class)
        } else {
            &[]
        }
    }

    fn constructor(&self, class: &Name) -> Option<&MemberFace> {
        if self.declares(class) {
            self.view.constructor(class)
        } else {
            None
        }
    }
}
