ghost use Rattle.std.specs.Prelude.{◌≡◌, ℕ, List};
ghost use Rattle.core_model.specs.declared.program.Program.{Program};
ghost use Rattle.core_model.specs.Begin.{begin};
ghost use Rattle.core_model.specs.Step.{run};
ghost use Rattle.core_laws.specs.Bare.{bare_program, bare_config};

/// Programs that are alike but for notes have runs that are alike but for notes, whatever the mains
/// and the schedule.
pub fn notes_change_nothing()
    ensures { (p q : Program) → bare_program p ≡ bare_program q → (mains schedule : List ℕ)
        → bare_config (run p (begin p mains) schedule) ≡ bare_config (run q (begin q mains) schedule) }
{}
