ghost use Rattle.std.specs.Prelude.{◌≡◌, ◌≢◌, ℕ, Some, slice_get};
ghost use Rattle.core_model.specs.declared.program.Program.{Program};
ghost use Rattle.core_model.specs.declared.config.Config.{Config};
ghost use Rattle.core_model.specs.declared.config.Thread.{Thread};
ghost use Rattle.core_model.specs.Step.{step};

/// The step of a thread leaves every other thread as it is.
pub fn other_threads_stay()
    ensures { (p : Program) (c : Config) (t s : ℕ) (thread : Thread) → s ≢ t → slice_get c.threads s ≡ Some thread
        → slice_get (step p c t).threads s ≡ Some thread }
{}
