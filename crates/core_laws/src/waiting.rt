ghost use Rattle.std.specs.Prelude.{◌≡◌, ℕ, List, Some, None, slice_get};
ghost use Rattle.core_model.specs.declared.program.Program.{Program};
ghost use Rattle.core_model.specs.declared.config.Call.{Call};
ghost use Rattle.core_model.specs.declared.config.Config.{Config};
ghost use Rattle.core_model.specs.declared.config.Thread.{Thread};
ghost use Rattle.core_model.specs.declared.config.Mode.TheVariants as mode;
ghost use Rattle.core_model.specs.Step.{step};
ghost use Rattle.core_laws.specs.Waiting.{IsBlocked};

/// The step of a thread that isn't there, is over, or is about to enter a monitor that another
/// thread owns, changes nothing.
pub fn waiting_changes_nothing()
    ensures absent { (p : Program) (c : Config) (t : ℕ) → slice_get c.threads t ≡ None → step p c t ≡ c }
    ensures over { (p : Program) (c : Config) (t : ℕ) (thread : Thread) → slice_get c.threads t ≡ Some thread
        → thread.mode ≡ mode.Over → step p c t ≡ c }
    ensures blocked { (p : Program) (c : Config) (t : ℕ) (thread : Thread) (call : Call) (below : List Call) (r : ℕ)
        → IsBlocked c t thread call below r → step p c t ≡ c }
{}
