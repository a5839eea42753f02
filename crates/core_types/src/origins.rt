ghost use Rattle.std.specs.Prelude.{◌≡◌, ℕ, true, List, ◌∷◌, Some, slice_get};
ghost use Rattle.core_model.specs.Code.{Code, Do};
ghost use Rattle.core_model.specs.declared.instr.Note.{Note};
ghost use Rattle.core_model.specs.declared.instr.Plain.{Plain};
ghost use Rattle.core_model.specs.declared.program.Program.{Program};
ghost use Rattle.core_model.specs.declared.config.Call.{Call};
ghost use Rattle.core_model.specs.declared.config.Mode.TheVariants as mode;
ghost use Rattle.core_model.specs.declared.value.Value.{Value};
ghost use Rattle.core_model.specs.Begin.{begin};
ghost use Rattle.core_model.specs.Step.{run};
ghost use Rattle.core_laws.specs.Places.{Each};
ghost use Rattle.core_types.specs.Types.{Types, of_unit, has};
ghost use Rattle.core_types.specs.Uses.{use_of};
ghost use Rattle.core_types.specs.Programs.{ProgramFits};
ghost use Rattle.core_types.specs.Origins.{Operands, OriginsFit, HaveOrigins, gives_of, takes_of, origin_use, origins};

/// Where each unit's code fits what a table says of the origins of its operands, each temporary of a
/// running call comes from where is known, in every run. So what the next instruction takes and the
/// table says is from a local is what that local holds.
pub fn origins_are_kept()
    ensures temporaries { (p : Program) (T : Types) (O : Operands) → ProgramFits p T → OriginsFit p T O
        → (mains schedule : List ℕ) → Each (λ c. has p.mains c ≡ true) mains → (t : ℕ) (call : Call) (below : List Call)
        → slice_get (run p (begin p mains) schedule).threads t ≡ Some (record { calls = call ∷ below; mode = mode.Running })
        → HaveOrigins call.locals call.temps (origins p T O call.unit call.rest) }
    ensures taken { (p : Program) (T : Types) (O : Operands) → ProgramFits p T → OriginsFit p T O
        → (mains schedule : List ℕ) → Each (λ c. has p.mains c ≡ true) mains → (t : ℕ) (call : Call) (below : List Call)
        → slice_get (run p (begin p mains) schedule).threads t ≡ Some (record { calls = call ∷ below; mode = mode.Running })
        → (n : Note) (i : Plain) (k : Code) (j x : ℕ) (v : Value) → call.rest ≡ Do n i k
        → slice_get (takes_of (origin_use (O call.unit n.place) (gives_of (use_of p T (of_unit T call.unit) n i)) i)) j ≡ Some (Some x)
        → slice_get call.temps j ≡ Some v → slice_get call.locals x ≡ Some v }
{}
