ghost use Rattle.std.specs.Prelude.{◌≡◌, ℕ, true, Some, slice_get, is_some};
ghost use Rattle.core_model.specs.Objects.{field_at};
ghost use Rattle.core_model.specs.declared.program.Program.{Program};
ghost use Rattle.core_model.specs.declared.config.Call.{Call};
ghost use Rattle.core_model.specs.declared.config.Config.{Config};
ghost use Rattle.core_model.specs.declared.config.Gives.TheVariants as gives;
ghost use Rattle.core_model.specs.declared.config.Mode.TheVariants as mode;
ghost use Rattle.core_model.specs.declared.config.Thread.{Thread};
ghost use Rattle.core_model.specs.declared.value.Value.TheVariants as value;
ghost use Rattle.core_types.specs.Types.{Types};
ghost use Rattle.core_types.specs.Configs.{ConfigFits};

/// In a well typed configuration no value names an object that isn't there: not that of a field, of a
/// local or a temporary of any call, of a result with which a call is being left, nor the object that
/// a call is to give.
pub fn values_name_objects_that_are_there()
    ensures fields { (p : Program) (T : Types) (c : Config) (r i q : ℕ) → ConfigFits p T c
        → field_at c.objects r i ≡ Some (value.Ref q) → is_some (slice_get c.objects q) ≡ true }
    ensures locals { (p : Program) (T : Types) (c : Config) (t j i q : ℕ) (thread : Thread) (call : Call) → ConfigFits p T c
        → slice_get c.threads t ≡ Some thread → slice_get thread.calls j ≡ Some call
        → slice_get call.locals i ≡ Some (value.Ref q) → is_some (slice_get c.objects q) ≡ true }
    ensures temporaries { (p : Program) (T : Types) (c : Config) (t j i q : ℕ) (thread : Thread) (call : Call) → ConfigFits p T c
        → slice_get c.threads t ≡ Some thread → slice_get thread.calls j ≡ Some call
        → slice_get call.temps i ≡ Some (value.Ref q) → is_some (slice_get c.objects q) ≡ true }
    ensures given { (p : Program) (T : Types) (c : Config) (t j q : ℕ) (thread : Thread) (call : Call) → ConfigFits p T c
        → slice_get c.threads t ≡ Some thread → slice_get thread.calls j ≡ Some call
        → call.gives ≡ gives.Object q → is_some (slice_get c.objects q) ≡ true }
    ensures results { (p : Program) (T : Types) (c : Config) (t q : ℕ) (thread : Thread) → ConfigFits p T c
        → slice_get c.threads t ≡ Some thread → thread.mode ≡ mode.Leaving (Some (value.Ref q)) → is_some (slice_get c.objects q) ≡ true }
{}
