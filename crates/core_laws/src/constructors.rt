ghost use Rattle.std.specs.Prelude.{◌≡◌, ℕ, true, List, ◌∷◌, Some, slice_get};
ghost use Rattle.core_model.specs.declared.program.Program.{Program};
ghost use Rattle.core_model.specs.declared.program.UnitCode.{UnitCode};
ghost use Rattle.core_model.specs.declared.config.Call.{Call};
ghost use Rattle.core_model.specs.declared.config.Config.{Config};
ghost use Rattle.core_model.specs.declared.config.Gives.TheVariants as gives;
ghost use Rattle.core_model.specs.declared.config.Mode.{Mode};
ghost use Rattle.core_model.specs.declared.config.Mode.TheVariants as mode;
ghost use Rattle.core_model.specs.declared.value.Value.TheVariants as value;
ghost use Rattle.core_model.specs.Begin.{begin};
ghost use Rattle.core_model.specs.Step.{run, step, with_given};
ghost use Rattle.core_laws.specs.Places.{Always, EveryCall};
ghost use Rattle.core_laws.specs.Constructors.{HasOwnConstructors, IsConstructor, IsLeft, MakesByUnit, new_uncalled, this_stays};

/// Where no code sets local 0, the call on top of a running thread that makes an object is of a
/// constructor, and its `this` is that object. Where no code calls a constructor but to make an
/// object, and no other member has its unit, the calls that make objects are those of constructors,
/// whether they run, wait or are left. A call that makes an object gives its caller that object,
/// whatever its code returns.
pub fn constructors_have_their_object()
    ensures this { (p : Program)
        → ((u : ℕ) (code : UnitCode) → slice_get p.units u ≡ Some code → Always (λ k. this_stays k ≡ true) code.code)
        → (mains schedule : List ℕ) (t r : ℕ) (call : Call) (below : List Call)
        → slice_get (run p (begin p mains) schedule).threads t ≡ Some (record { calls = call ∷ below; mode = mode.Running })
        → call.gives ≡ gives.Object r
        → (slice_get call.locals 0 ≡ Some (value.Ref r)) × IsConstructor p call.unit }
    ensures made { (p : Program) → HasOwnConstructors p
        → ((u : ℕ) (code : UnitCode) → slice_get p.units u ≡ Some code → Always (λ k. new_uncalled k ≡ true) code.code)
        → (mains schedule : List ℕ) → EveryCall (MakesByUnit p) (run p (begin p mains) schedule).threads }
    ensures given { (p : Program) (c : Config) (t r : ℕ) (call caller : Call) (below : List Call) (m : Mode)
        → slice_get c.threads t ≡ Some (record { calls = call ∷ caller ∷ below; mode = m })
        → call.gives ≡ gives.Object r → IsLeft m call.rest
        → slice_get (step p c t).threads t ≡ Some (record { calls = with_given caller (Some (value.Ref r)) ∷ below; mode = mode.Running }) }
{}
