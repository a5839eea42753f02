ghost use Rattle.std.specs.Prelude.{◌≡◌, ℕ, false, List, ◌∷◌, Option, Some, slice_get};
ghost use Rattle.core_model.specs.declared.program.Program.{Program};
ghost use Rattle.core_model.specs.declared.config.Call.{Call};
ghost use Rattle.core_model.specs.declared.config.Config.{Config};
ghost use Rattle.core_model.specs.declared.config.Mode.{Mode};
ghost use Rattle.core_model.specs.declared.config.Mode.TheVariants as mode;
ghost use Rattle.core_model.specs.declared.value.Value.{Value};
ghost use Rattle.core_model.specs.Step.{step};
ghost use Rattle.core_types.specs.Types.{Types};
ghost use Rattle.core_types.specs.Configs.{ConfigFits};
ghost use Rattle.core_types.specs.Faults.{faults, is_ending_thread, is_over_thread, leaves_last};

/// In a well typed configuration a running thread is ending after its step exactly where its next
/// instruction has a null base, a null receiver, null to enter or a divisor of zero (JLS 8, 15.11.1,
/// 15.12.4.4, 14.19 and 15.17.2); one that leaves a call never is. A thread is over after its step
/// exactly where this leaves its last call.
pub fn threads_end_by_faults()
    ensures ends { (p : Program) (T : Types) (c : Config) (t : ℕ) (call : Call) (below : List Call) → ConfigFits p T c
        → slice_get c.threads t ≡ Some (record { calls = call ∷ below; mode = mode.Running })
        → is_ending_thread (slice_get (step p c t).threads t) ≡ faults call.rest call.temps }
    ensures leaves { (p : Program) (T : Types) (c : Config) (t : ℕ) (call : Call) (below : List Call) (v : Option Value) → ConfigFits p T c
        → slice_get c.threads t ≡ Some (record { calls = call ∷ below; mode = mode.Leaving v })
        → is_ending_thread (slice_get (step p c t).threads t) ≡ false }
    ensures over { (p : Program) (T : Types) (c : Config) (t : ℕ) (call : Call) (below : List Call) (m : Mode) → ConfigFits p T c
        → slice_get c.threads t ≡ Some (record { calls = call ∷ below; mode = m })
        → is_over_thread (slice_get (step p c t).threads t) ≡ leaves_last m call.rest below }
{}
