ghost use Rattle.std.specs.Prelude.{◌≡◌, ℕ, List, Bool, Some, IsTrue, slice_get};
ghost use Rattle.core_model.specs.Code.{Code};
ghost use Rattle.core_model.specs.declared.program.Program.{Program};
ghost use Rattle.core_model.specs.declared.program.UnitCode.{UnitCode};
ghost use Rattle.core_model.specs.Begin.{begin};
ghost use Rattle.core_model.specs.Step.{run};
ghost use Rattle.core_laws.specs.Places.{Always, Here, EveryCall};

/// What is known of the code at each place of each unit stays known of what is left of each call, in
/// every run: for any test of a unit and of what is left at a place. So it is of what is left itself,
/// unless that is nothing.
pub fn known_code_stays_known()
    ensures always { (p : Program) (test : ℕ → Code → Bool)
        → ((u : ℕ) (code : UnitCode) → slice_get p.units u ≡ Some code → Always (λ k. IsTrue (test u k)) code.code)
        → (mains schedule : List ℕ)
        → EveryCall (λ c. Always (λ k. IsTrue (test c.unit k)) c.rest) (run p (begin p mains) schedule).threads }
    ensures here { (p : Program) (test : ℕ → Code → Bool)
        → ((u : ℕ) (code : UnitCode) → slice_get p.units u ≡ Some code → Always (λ k. IsTrue (test u k)) code.code)
        → (mains schedule : List ℕ)
        → EveryCall (λ c. Here (λ k. IsTrue (test c.unit k)) c.rest) (run p (begin p mains) schedule).threads }
{}
