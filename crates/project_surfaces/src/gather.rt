ghost use Rattle.std.specs.Prelude.{◌≡◌, ◌++◌, ◌∷◌, [], None, List, IfOk, OnOk, map};
ghost use Rattle.promise_scrub.specs.Surfaces.{Surface as IsSurface};
ghost use Rattle.project_files.specs.Kept.{class_of, tree_file};
ghost use Rattle.project_files.specs.Repeats.{NoRepeat};
ghost use Rattle.project_files.specs.Trees.{ClassText, class_in, types_of};
ghost use Rattle.views.specs.Face.{RegionsStand, surface_named};
ghost use Rattle.views.specs.Filed.{with_surface};
ghost use Rattle.project_surfaces.specs.Gathered.{AreGathered, UnfitOf};

use crate::keys::put_keys;
use bundle::FileEntry;
use desk_base::{OutOfMemory, PromiseKey};
use java_tree::ClassTree;
use judged_form::is_judged;
use project_files::ReadFile;
use promise_scrub::{Surface, one_surface, surface_of};
use std::alloc::Global;
use views::{AddError, Surfaces, surface_regions_stand};

/// The surfaces of types by their names; the keys of their promises, those that stand and those that are
/// set aside; and the path of the first type that isn't judged so far.
#[derive(Drop)]
pub struct ProjectSurfaces<'a> {
    pub surfaces: Surfaces,
    pub keys: Vec<PromiseKey>,
    pub unfit: Option<&'a [u8]>,
}

/// The path of the first type that isn't judged, of types of which one more has this surface.
fn unfit_with<'a>(before: Option<&'a [u8]>, path: &'a [u8], surface: &Surface) -> Option<&'a [u8]>
    ensures { (types : List ClassText) (t : ClassText) → t.path ≡ path.entry.now → IsSurface t.class surface.now → UnfitOf types before.entry → UnfitOf (types ++ t ∷ []) result }
{
    one_surface();
    match before {
        Some(first) => Some(first),
        None => { if is_judged(surface) { None } else { Some(path) } }
    }
}

// Puts a surface in. One of a name that is there already changes nothing.
fn put_surface(surfaces: &mut Surfaces, surface: Surface) -> Result<(), OutOfMemory>
    requires { RegionsStand surface.regions }
    ensures { OnOk result (surface_named surfaces.old surface.name ≡ None → surfaces.new ≡ with_surface surfaces.old surface) }
{
    match surfaces.add(surface) {
        Ok(()) => Ok(()),
        Err(AddError::Repeated) => Ok(()),
        Err(AddError::OutOfMemory) => Err(OutOfMemory),
    }
}

impl<'a> ProjectSurfaces<'a> {
    fn new(alloc: Global) -> Result<ProjectSurfaces<'a>, OutOfMemory>
        ensures { IfOk result (AreGathered []) }
    {
        Ok(ProjectSurfaces {
            surfaces: Surfaces::new(alloc)?,
            keys: Vec::new(alloc),
            unfit: None,
        })
    }

    // Adds the surface of a type.
    fn put(&mut self, path: &'a [u8], surface: Surface) -> Result<(), OutOfMemory>
        requires { RegionsStand surface.regions }
        ensures { OnOk result ((types : List ClassText) (t : ClassText) → t.path ≡ path.entry.now → IsSurface t.class surface → NoRepeat (types ++ t ∷ []) → AreGathered types self.old → AreGathered (types ++ t ∷ []) self.new) }
    {
        put_keys(&surface, &mut self.keys)?;
        self.unfit = unfit_with(self.unfit, path, &surface);
        put_surface(&mut self.surfaces, surface)?;
        Ok(())
    }

    // Adds a type.
    fn add(
        &mut self,
        alloc: Global,
        file: FileEntry<'a>,
        class: &ClassTree,
    ) -> Result<(), OutOfMemory>
        ensures { OnOk result ((types : List ClassText) → NoRepeat (types ++ class_of file.entry class.now ∷ []) → AreGathered types self.old → AreGathered (types ++ class_of file.entry class.now ∷ []) self.new) }
    {
        surface_regions_stand();
        let surface = surface_of(alloc, class)?;
        self.put(file.path, surface)?;
        Ok(())
    }

    // Adds the types of a file.
    fn add_types(&mut self, alloc: Global, read: &ReadFile<'a>) -> Result<(), OutOfMemory>
        ensures { OnOk result ((types : List ClassText) → NoRepeat (types ++ map (class_in (tree_file read.now)) read.now.tree.types) → AreGathered types self.old → AreGathered (types ++ map (class_in (tree_file read.now)) read.now.tree.types) self.new) }
    {
        for class in read.tree.types.as_slice() {
            self.add(alloc, read.file, class)?;
        }
        Ok(())
    }
}

/// The surfaces of all types of files, whose names differ, with the keys of their promises and the path of
/// the first that isn't judged so far.
pub fn project_surfaces<'a>(
    alloc: Global,
    read: &[ReadFile<'a>],
) -> Result<ProjectSurfaces<'a>, OutOfMemory>
    ensures { IfOk result (λ made. NoRepeat (types_of (map tree_file read.now)) → AreGathered (types_of (map tree_file read.now)) made) }
{
    let mut made = ProjectSurfaces::new(alloc)?;
    for file in read {
        made.add_types(alloc, file)?;
    }
    Ok(made)
}
