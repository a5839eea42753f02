ghost use Rattle.std.specs.Prelude.{◌≡◌, ℕ, true, List};
ghost use Rattle.core_model.specs.declared.program.Program.{Program};
ghost use Rattle.core_model.specs.declared.config.Config.{Config};
ghost use Rattle.core_model.specs.Begin.{begin};
ghost use Rattle.core_model.specs.Step.{step, run};
ghost use Rattle.core_laws.specs.Places.{Each};
ghost use Rattle.core_types.specs.Types.{Types, has};
ghost use Rattle.core_types.specs.Programs.{ProgramFits, WellTyped};
ghost use Rattle.core_types.specs.Configs.{ConfigFits, WellTypedConfig};

/// A well typed program begins with a well typed configuration, whichever of its mains are named, and
/// the step of any thread keeps a configuration well typed; so each configuration of every run is, by
/// the same types.
pub fn types_are_kept()
    ensures begun { (p : Program) (T : Types) → ProgramFits p T → (mains : List ℕ) → Each (λ c. has p.mains c ≡ true) mains
        → ConfigFits p T (begin p mains) }
    ensures kept { (p : Program) (T : Types) (c : Config) (t : ℕ) → ConfigFits p T c → ConfigFits p T (step p c t) }
    ensures always { (p : Program) (T : Types) → ProgramFits p T → (mains schedule : List ℕ) → Each (λ c. has p.mains c ≡ true) mains
        → ConfigFits p T (run p (begin p mains) schedule) }
    ensures well_typed { (p : Program) → WellTyped p → (mains schedule : List ℕ) → Each (λ c. has p.mains c ≡ true) mains
        → WellTypedConfig p (run p (begin p mains) schedule) }
{}
