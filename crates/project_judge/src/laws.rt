//! What follows from the definitions alone: the call does nothing, and its contract is a law.

ghost use Rattle.std.specs.Prelude.{◌≡◌, List};
ghost use Rattle.bundle.specs.Entry.{Entry};
ghost use Rattle.report.specs.declared.answers.Answers.{Answers as Results};
ghost use Rattle.project_files.specs.Project.{PathsDiffer};
ghost use Rattle.project_judge.specs.Project.{AnswersOn, IsCauseOf};
ghost use Rattle.project_judge.specs.declared.error.ProjectError.{ProjectError as Cause};
ghost use Rattle.project_judge.specs.declared.error.ProjectError.TheVariants.{OutOfMemory as NoMemory};

use binder::one_bound_unit;
use project_files::{one_project, projects_have_no_cause};
use promise_scrub::one_surface;

/// Files with paths of their own that have answers have no cause why they aren't judged, but want of
/// memory.
pub fn answered_files_have_no_cause()
    ensures { (files : List Entry) (answers : Results) (e : Cause) → PathsDiffer files → AnswersOn files answers → IsCauseOf files e → e ≡ NoMemory }
{
    one_project();
    projects_have_no_cause();
    one_surface();
    one_bound_unit();
}
