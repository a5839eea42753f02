ghost use Rattle.std.specs.Prelude.{◌≡◌, ◌++◌, ◌∷◌, [], List, None, OnOk, is_some, map};
ghost use Rattle.project_files.specs.Trees.{ClassText};
ghost use Rattle.project_files.specs.Trees.{class_in};
ghost use Rattle.project_files.specs.Kept.{tree_file, class_of, AreNamed};

use crate::reading::ReadFile;
use bundle::FileEntry;
use desk_base::{Name, OutOfMemory};
use java_tree::ClassTree;
use std::alloc::Global;
use std::collections::BTreeMap;

/// A type whose name is used before: its name, the path of the type before it with the name, and its own
/// path.
#[derive(Drop)]
pub struct Repeat<'a> {
    pub name: Name,
    pub first: &'a [u8],
    pub second: &'a [u8],
}

/// The names of types, each with the path of its file, up to the first whose name is used before.
#[derive(Drop)]
pub struct TypeNames<'a> {
    paths: BTreeMap<Name, &'a [u8]>,
    repeat: Option<Repeat<'a>>,
}

impl<'a> TypeNames<'a> {
    /// Of no type.
    pub fn new(alloc: Global) -> TypeNames<'a>
        ensures { AreNamed [] result }
    {
        TypeNames {
            paths: BTreeMap::new(alloc),
            repeat: None,
        }
    }

    // Adds the name of a type.
    fn add(&mut self, file: FileEntry<'a>, class: &ClassTree) -> Result<(), OutOfMemory>
        ensures named { OnOk result ((types : List ClassText) → AreNamed types self.old → AreNamed (types ++ class_of file.entry class.now ∷ []) self.new) }
        ensures none { OnOk result (self.new.repeat ≡ None → self.old.repeat ≡ None) }
    {
        if self.repeat.is_some() {
            return Ok(());
        }
        let name = class.name.text.clone()?;
        if let Some(first) = self.paths.insert(name, file.path)? {
            self.repeat = Some(Repeat {
                name: class.name.text.clone()?,
                first,
                second: file.path,
            });
        }
        Ok(())
    }

    /// Adds the names of a file's types.
    pub fn add_types(&mut self, read: &ReadFile<'a>) -> Result<(), OutOfMemory>
        ensures named { OnOk result ((types : List ClassText) → AreNamed types self.old → AreNamed (types ++ map (class_in (tree_file read.now)) read.now.tree.types) self.new) }
        ensures none { OnOk result (self.new.repeat ≡ None → self.old.repeat ≡ None) }
    {
        for class in read.tree.types.as_slice() {
            self.add(read.file, class)?;
        }
        Ok(())
    }

    /// Whether a name is used before.
    pub fn has_repeat(&self) -> bool
        ensures { result ≡ is_some self.now.repeat }
    {
        self.repeat.is_some()
    }

    /// The first type whose name is used before.
    pub fn into_repeat(self) -> Option<Repeat<'a>>
        ensures { result ≡ self.entry.repeat }
    {
        self.repeat
    }
}
