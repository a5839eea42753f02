ghost use Rattle.std.specs.Prelude.{◌≡◌, ℕ, true, List, Some, slice_get};
ghost use Rattle.core_model.specs.Objects.{field_at};
ghost use Rattle.core_model.specs.Begin.{begin};
ghost use Rattle.core_model.specs.Step.{run};
ghost use Rattle.core_model.specs.declared.program.Program.{Program};
ghost use Rattle.core_model.specs.declared.program.UnitCode.{UnitCode};
ghost use Rattle.core_model.specs.declared.object.ObjKind.{ObjKind};
ghost use Rattle.core_model.specs.declared.value.Value.{Value};
ghost use Rattle.core_laws.specs.Places.{Always, Each};
ghost use Rattle.core_laws.specs.Shape.{kind_at};
ghost use Rattle.core_types.specs.Types.{Types, has};
ghost use Rattle.core_types.specs.Programs.{ProgramFits};
ghost use Rattle.core_types.specs.Spared.{spares_field};

/// In every run of a well typed program a field that no code writes, of a class's holder or of the
/// objects made of a class, keeps its value.
pub fn fields_that_no_code_writes_stay()
    ensures { (p : Program) (T : Types) (k : ObjKind) (i : ℕ) → ProgramFits p T
        → ((u : ℕ) (code : UnitCode) → slice_get p.units u ≡ Some code → Always (λ l. spares_field k i l ≡ true) code.code)
        → (mains schedule more : List ℕ) → Each (λ c. has p.mains c ≡ true) mains → (r : ℕ) (v : Value)
        → kind_at (run p (begin p mains) schedule) r ≡ Some k → field_at (run p (begin p mains) schedule).objects r i ≡ Some v
        → field_at (run p (run p (begin p mains) schedule) more).objects r i ≡ Some v }
{}
