ghost use Rattle.std.specs.Prelude.{◌≡◌, ℕ, true, List, ◌∷◌, Some, None, slice_get, is_some};
ghost use Rattle.core_model.specs.declared.program.Program.{Program};
ghost use Rattle.core_model.specs.declared.config.Call.{Call};
ghost use Rattle.core_model.specs.declared.config.Config.{Config};
ghost use Rattle.core_model.specs.declared.config.Mode.TheVariants as mode;
ghost use Rattle.core_model.specs.NextAccess.{next_access, field_of_object};
ghost use Rattle.core_types.specs.Types.{Types};
ghost use Rattle.core_types.specs.Configs.{ConfigFits};
ghost use Rattle.core_types.specs.Reaching.{reached};

/// In a well typed configuration the field that a running thread's next instruction reads or writes,
/// on a base that isn't null, is a declared one; so its access is left out only where that field is
/// final. A thread whose next instruction reaches no field has no access.
pub fn fields_that_are_reached_are_declared()
    ensures declared { (p : Program) (T : Types) (c : Config) (t : ℕ) (call : Call) (below : List Call) (r i : ℕ) → ConfigFits p T c
        → slice_get c.threads t ≡ Some (record { calls = call ∷ below; mode = mode.Running })
        → reached call.rest call.temps ≡ Some (r, i) → is_some (field_of_object p (slice_get c.objects r) i) ≡ true }
    ensures none { (p : Program) (c : Config) (t : ℕ) (call : Call) (below : List Call)
        → slice_get c.threads t ≡ Some (record { calls = call ∷ below; mode = mode.Running })
        → reached call.rest call.temps ≡ None → next_access p c t ≡ None }
{}
