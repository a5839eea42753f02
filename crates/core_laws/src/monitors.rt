ghost use Rattle.std.specs.Prelude.{◌≡◌, ◌<◌, ℕ, List, Some, slice_get};
ghost use Rattle.core_model.specs.declared.program.Program.{Program};
ghost use Rattle.core_model.specs.declared.config.Config.{Config};
ghost use Rattle.core_model.specs.Begin.{begin};
ghost use Rattle.core_model.specs.Step.{run};
ghost use Rattle.core_laws.specs.Marks.{HasNoMarks, marks_by, owner_at, Counted};

/// In every run of a program whose code has no mark of a monitor, each monitor is owned and counted by
/// exactly the marks that are left in its owner's calls; a free one has count 0 (JLS 8, 14.19 and
/// 17.1). So a thread in whose calls a mark of an object is left owns that object's monitor.
pub fn marks_tell_owners()
    ensures counted { (p : Program) → HasNoMarks p → (mains schedule : List ℕ) → Counted (run p (begin p mains) schedule) }
    ensures owner { (c : Config) → Counted c → (t r : ℕ) → 0 < marks_by r (slice_get c.threads t) → owner_at c r ≡ Some t }
{}
