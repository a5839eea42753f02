use class_faces::{FaceTy, FieldFace};
use desk_base::{Name, OutOfMemory};
use std::alloc::Global;
use std::collections::BTreeMap;
use std::marker::Model;

/// A parameter or local that a name in scope names: its number as in core code, its declared type,
/// and whether it is final.
#[derive(Drop)]
pub struct Variable {
    pub number: u32,
    pub ty: FaceTy,
    pub is_final: bool,
}

/// A name in scope. The parameter of a main names nothing in its body, and hides what its name would
/// name.
#[derive(Drop)]
pub struct Entry {
    pub name: Name,
    pub variable: Option<Variable>,
}

/// What a bare name names: a local or parameter, else a field of the own class. The name of a main's
/// parameter is neither, and no type.
#[derive(Clone, Copy)]
pub enum Meaning<'s> {
    Variable(&'s Variable),
    Field(&'s FieldFace),
    Hidden,
    Free,
}

/// The names in scope, in the order in which they came. No name stands twice. Finding a name and
/// putting one in take the time of a look-up in a map, and taking names out that of what is taken.
#[derive(Drop)]
pub struct Scope {
    entries: Vec<Entry>,
    // Where each name in scope stands. A name that was taken out may be left here, with a place at
    // which now another name stands, or none.
    places: BTreeMap<Name, usize>,
}

impl Model for Scope {
    ghost use Rattle.std.specs.Prelude.{List};
    ghost use Rattle.name_rules.specs.declared.scope.Entry.{Entry};
    ghost use Rattle.name_rules.specs.Named.{IsNamed};

    ghost Value = { List Entry };

    ghost view = { λ s. s.entries.items };

    ghost invariant = { λ s. IsNamed s.places s.entries.items };
}

impl Scope {
    ghost use Rattle.std.specs.Prelude.{◌≡◌, [], take, length, OnOk, OnErr};
    ghost use Rattle.std.specs.Option.{option_copied};
    ghost use Rattle.name_rules.specs.Scopes as spec;

    /// No names.
    pub fn new(alloc: Global) -> Scope
        ensures { result ≡ [] }
    {
        Scope {
            entries: Vec::new(alloc),
            places: BTreeMap::new(alloc),
        }
    }

    /// The entry of a name, where it is in scope.
    pub fn entry(&self, name: &Name) -> Option<&Entry>
        ensures { option_copied result ≡ spec.entry_of self.now name.now }
    {
        let place = self.places.get(name)?;
        let entry = self.entries.get(*place)?;
        if entry.name == *name {
            Some(entry)
        } else {
            None
        }
    }

    /// Whether a name is in scope.
    pub fn has(&self, name: &Name) -> bool
        ensures { result ≡ spec.in_scope self.now name.now }
    {
        self.entry(name).is_some()
    }

    /// One more name; of a repeated one the first stays. For want of memory nothing changes.
    pub fn put(&mut self, entry: Entry) -> Result<(), OutOfMemory>
        ensures ok { OnOk result (self.new ≡ spec.with_entry self.old entry) }
        ensures err { OnErr result (self.new ≡ self.old) }
    {
        if self.has(&entry.name) {
            return Ok(());
        }
        let name = entry.name.clone()?;
        let place = self.len();
        self.places.insert(name, place)?;
        self.entries.push(entry)?;
        Ok(())
    }

    /// How many names are in scope.
    pub fn len(&self) -> usize
        ensures { result ≡ length self.now }
    {
        self.entries.len()
    }

    /// Takes all but the first names out again.
    pub fn cut(&mut self, len: usize)
        ensures { self.new ≡ take len self.old }
    {
        self.entries.truncate(len);
    }

    /// What a name names, where the field of that name in the own class is given.
    pub fn meaning<'s>(&'s self, name: &Name, own: Option<&'s FieldFace>) -> Meaning<'s>
        ensures { spec.shown result ≡ spec.meaning_in self.now name.now (option_copied own.entry) }
    {
        match self.entry(name) {
            Some(entry) => Self::variable_meaning(&entry.variable),
            None => Self::field_meaning(own),
        }
    }

    fn variable_meaning(variable: &Option<Variable>) -> Meaning<'_>
        ensures { spec.shown result ≡ spec.variable_meaning variable.now }
    {
        match variable {
            Some(variable) => Meaning::Variable(variable),
            None => Meaning::Hidden,
        }
    }

    fn field_meaning(own: Option<&FieldFace>) -> Meaning<'_>
        ensures { spec.shown result ≡ spec.field_meaning (option_copied own.entry) }
    {
        match own {
            Some(field) => Meaning::Field(field),
            None => Meaning::Free,
        }
    }
}
