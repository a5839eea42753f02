//! What follows from the definitions alone: the calls do nothing, and their contracts are laws.

ghost use Rattle.std.specs.Prelude.{◌≡◌, List};
ghost use Rattle.bundle.specs.Entry.{Entry};
ghost use Rattle.project_files.specs.declared.error.FilesError.{FilesError as Cause};
ghost use Rattle.project_files.specs.declared.error.FilesError.TheVariants.{OutOfMemory as NoMemory};
ghost use Rattle.project_files.specs.Project.{AreProject, IsCauseOf, PathsDiffer};
ghost use Rattle.project_files.specs.Trees.{TreeFile};

use java_reader::one_tree;

/// Files with paths of their own are one project at most.
pub fn one_project()
    ensures { (files : List Entry) (a b : List TreeFile) → PathsDiffer files → AreProject files a → AreProject files b → a ≡ b }
{
    one_tree();
}

/// Files with paths of their own that are a project have no cause why they are none, but want of memory.
pub fn projects_have_no_cause()
    ensures { (files : List Entry) (trees : List TreeFile) (e : Cause) → PathsDiffer files → AreProject files trees → IsCauseOf files e → e ≡ NoMemory }
{
    one_tree();
}
