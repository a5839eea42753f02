ghost use Rattle.std.specs.Prelude.{◌≡◌, IfOk};
ghost use Rattle.java_tree.specs.declared.file.TypeKind.TheVariants as written;
ghost use Rattle.views.specs.declared.surfaces.AddError.TheVariants as fault;
ghost use Rattle.views.specs.Face as spec;

use crate::entry::Entry;
use crate::kind::FaceKind;
use desk_base::{Items, Name, OutOfMemory, Text};
use java_tree::TypeKind;
use promise_scrub::{MemberFace, Surface};
use std::alloc::{AllocError, AllocFailed, Global};
use std::collections::BTreeMap;
use std::error::Error;
use std::fmt;
use std::marker::Model;

/// Why a surface isn't added.
#[derive(Clone, Copy, Debug, PartialEq, Eq)]
pub enum AddError {
    /// A surface of the name is there already.
    Repeated,
    OutOfMemory,
}

impl fmt::Display for AddError {
    fn fmt<W: fmt::Write>(&self, f: &mut fmt::Formatter<W>) -> fmt::Result {
        f.write_str(match self {
            AddError::Repeated => "type declared twice",
            AddError::OutOfMemory => "out of memory",
        })
    }
}

impl Error for AddError {}

impl From<AllocError> for AddError {
    ghost from_gives = { λ _ e. e ≡ fault.OutOfMemory };

    fn from(_error: AllocError) -> AddError {
        AddError::OutOfMemory
    }
}

impl<T: Drop> From<AllocFailed<T>> for AddError {
    ghost from_gives = { λ _ e. e ≡ fault.OutOfMemory };

    fn from(_error: AllocFailed<T>) -> AddError {
        AddError::OutOfMemory
    }
}

impl From<OutOfMemory> for AddError {
    ghost from_gives = { λ _ e. e ≡ fault.OutOfMemory };

    fn from(_error: OutOfMemory) -> AddError {
        AddError::OutOfMemory
    }
}

/// A type of the name without fields, members and promises.
fn bare_surface(alloc: Global, name: &[u8], kind: TypeKind) -> Result<Surface, OutOfMemory>
    ensures { IfOk result (λ surface. surface ≡ spec.bare_surface name.now kind) }
{
    let name = Name::from_slice(alloc, name)?;
    Ok(Surface {
        kind,
        name,
        implements: Items::new(alloc),
        fields: Items::new(alloc),
        members: Items::new(alloc),
        regions: Items::new(alloc),
        standing: Items::new(alloc),
        aside: Items::new(alloc),
        assumptions: Items::new(alloc),
        vouched: Items::new(alloc),
    })
}

/// Runnable, as an interface whose one method has no promises.
fn runnable_surface(alloc: Global) -> Result<Surface, OutOfMemory>
    ensures { IfOk result (λ surface. surface ≡ spec.runnable_surface) }
{
    let mut surface = bare_surface(alloc, b"Runnable", TypeKind::Interface)?;
    let run = MemberFace {
        key: Text::from_text(alloc, "Runnable.run/0")?,
        params: Items::new(alloc),
        result: None,
        is_static: false,
    };
    surface.members.push(run)?;
    Ok(surface)
}

fn bare_entry(alloc: Global, name: &[u8]) -> Result<Entry, OutOfMemory>
    ensures { IfOk result (λ entry. entry ≡ spec.bare_surface name.now written.Class) }
{
    let surface = bare_surface(alloc, name, TypeKind::Class)?;
    Entry::new(alloc, surface)
}

fn runnable_entry(alloc: Global) -> Result<Entry, OutOfMemory>
    ensures { IfOk result (λ entry. entry ≡ spec.runnable_surface) }
{
    let surface = runnable_surface(alloc)?;
    Entry::new(alloc, surface)
}

/// A type that is found by its name: its kind and its surface.
#[derive(Drop)]
pub(crate) struct Found<'a> {
    pub(crate) kind: FaceKind,
    pub(crate) entry: &'a Entry,
}

/// The surfaces of a project's types by their names, one of each name. Contracts see the list of
/// them in the order of the names.
#[derive(Drop)]
pub struct Surfaces {
    types: BTreeMap<Name, Entry>,
    object: Entry,
    string: Entry,
    runnable: Entry,
    alloc: Global,
}

impl Model for Surfaces {
    ghost use Rattle.std.specs.Prelude.{List};
    ghost use Rattle.std.specs.BTreeMap.{values};
    ghost use Rattle.promise_scrub.specs.declared.surface.Surface.{Surface as Shown};
    ghost use Rattle.views.specs.Filed.{IsFiled};
    ghost use Rattle.std.specs.Coded.{coded_list};
    ghost use Rattle.promise_scrub.specs.contracts.surface.Surface as shown;

    ghost Value = { List Shown };

    ghost coded = { coded_list shown.the_row.coded };

    ghost view = { λ s. values s.types };

    ghost invariant = { λ s. IsFiled s.types s.object s.string s.runnable };
}

fn declared_kind(kind: TypeKind) -> FaceKind
    ensures { result ≡ spec.kind_of kind }
{
    match kind {
        TypeKind::Class => FaceKind::Class,
        TypeKind::Interface => FaceKind::Interface,
    }
}

impl Surfaces {
    ghost use Rattle.std.specs.Prelude.{◌↔◌, [], IfOk, IsSome, MatchOption, None, OnErr, OnOk, Some, is_some};
    ghost use Rattle.std.specs.Option.{option_copied};
    ghost use Rattle.views.specs.Face.{RegionsStand, built_in, surface_named, type_named};
    ghost use Rattle.views.specs.Filed.{lent, with_surface};

    /// No surfaces. It takes memory for the types that are there without being declared.
    pub fn new(alloc: Global) -> Result<Surfaces, OutOfMemory>
        ensures { IfOk result (λ surfaces. surfaces ≡ []) }
    {
        let object = bare_entry(alloc, b"Object")?;
        let string = bare_entry(alloc, b"String")?;
        let runnable = runnable_entry(alloc)?;
        Ok(Surfaces {
            types: BTreeMap::new(alloc),
            object,
            string,
            runnable,
            alloc,
        })
    }

    /// Puts one more surface, of a class whose regions stand, at the place of its name. `Repeated`
    /// comes exactly where a surface of the name is there. After an error nothing has changed.
    pub fn add(&mut self, surface: Surface) -> Result<(), AddError>
        requires { RegionsStand surface.regions }
        ensures ok { OnOk result (self.new ≡ with_surface self.old surface) }
        ensures repeated { (result ≡ Err AddError.Repeated) ↔ IsSome (surface_named self.old surface.name) }
        ensures err { OnErr result (self.new ≡ self.old) }
    {
        if self.has(&surface.name) {
            return Err(AddError::Repeated);
        }
        match self.put(surface) {
            Ok(()) => Ok(()),
            Err(OutOfMemory) => Err(AddError::OutOfMemory),
        }
    }

    /// Whether there is a surface of the name. It takes no memory.
    pub fn has(&self, name: &Name) -> bool
        ensures { result ≡ is_some (surface_named self.now name.now) }
    {
        self.entry(name).is_some()
    }

    // Puts a surface in, or replaces the one of its name.
    fn put(&mut self, surface: Surface) -> Result<(), OutOfMemory>
        requires { RegionsStand surface.regions }
        ensures ok { OnOk result (self.new ≡ with_surface self.old surface) }
        ensures err { OnErr result (self.new ≡ self.old) }
    {
        let name = surface.name.clone()?;
        let entry = Entry::new(self.alloc, surface)?;
        self.types.insert(name, entry)?;
        Ok(())
    }

    /// The surface of the name, where one was added. It takes no memory.
    pub fn get(&self, name: &Name) -> Option<&Surface>
        ensures { option_copied result ≡ surface_named self.now name.now }
    {
        let entry = self.entry(name)?;
        Some(entry.surface())
    }

    pub(crate) fn entry(&self, name: &Name) -> Option<&Entry>
        ensures { option_copied result ≡ surface_named self.now name.now }
    {
        self.types.get(name)
    }

    /// The surfaces in the order of their names. It takes memory for the list of them alone.
    pub fn in_order(&self) -> Result<Items<&Surface>, OutOfMemory>
        ensures { IfOk result (λ list. lent list ≡ self.now) }
    {
        let mut list = Items::new(self.alloc);
        for (_, entry) in &self.types {
            list.push(entry.surface())?;
        }
        Ok(list)
    }

    fn built_in(&self, name: &Name) -> Option<Found<'_>>
        ensures { MatchOption result (built_in name.now ≡ None) (λ f. built_in name.now ≡ Some (record { kind = f.kind; surface = f.entry.now })) }
    {
        let name = name.as_slice();
        if name == b"Object".as_slice() {
            Some(Found {
                kind: FaceKind::Object,
                entry: &self.object,
            })
        } else if name == b"String".as_slice() {
            Some(Found {
                kind: FaceKind::String,
                entry: &self.string,
            })
        } else if name == b"Runnable".as_slice() {
            Some(Found {
                kind: FaceKind::Runnable,
                entry: &self.runnable,
            })
        } else {
            None
        }
    }

    /// The type of the name, declared or not.
    pub(crate) fn find(&self, name: &Name) -> Option<Found<'_>>
        ensures { MatchOption result (type_named self.now name.now ≡ None) (λ f. type_named self.now name.now ≡ Some (record { kind = f.kind; surface = f.entry.now })) }
    {
        match self.entry(name) {
            Some(entry) => Some(Found {
                kind: declared_kind(entry.surface().kind),
                entry,
            }),
            None => self.built_in(name),
        }
    }
}
