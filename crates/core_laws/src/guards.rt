ghost use Rattle.std.specs.Prelude.{◌≡◌, ℕ, true, List, ◌∷◌, Option, Some, None, slice_get};
ghost use Rattle.core_model.specs.Code.{Code, Do};
ghost use Rattle.core_model.specs.declared.instr.Note.{Note};
ghost use Rattle.core_model.specs.declared.instr.Plain.TheVariants as plain;
ghost use Rattle.core_model.specs.declared.program.Program.{Program};
ghost use Rattle.core_model.specs.declared.program.UnitCode.{UnitCode};
ghost use Rattle.core_model.specs.declared.config.Call.{Call};
ghost use Rattle.core_model.specs.declared.config.Mode.TheVariants as mode;
ghost use Rattle.core_model.specs.declared.value.Value.{Value};
ghost use Rattle.core_model.specs.declared.value.Value.TheVariants as value;
ghost use Rattle.core_model.specs.Begin.{begin};
ghost use Rattle.core_model.specs.Step.{run};
ghost use Rattle.core_laws.specs.Places.{Always};
ghost use Rattle.core_laws.specs.Marks.{HasNoMarks, owner_at};
ghost use Rattle.core_laws.specs.Guards.{Promised, Dispatched, based, sound};

/// Where each read that the table names stands under a mark of the local that its base was got from,
/// in every run a thread that is about to make such a read owns the base's monitor.
pub fn guarded_reads_are_owned()
    ensures { (p : Program) (T : Promised) → HasNoMarks p → Dispatched p T
        → ((u : ℕ) (code : UnitCode) → slice_get p.units u ≡ Some code → Always (λ k. sound T u k ≡ true) code.code)
        → ((u : ℕ) (code : UnitCode) → slice_get p.units u ≡ Some code → based T u code.code ≡ None)
        → (mains schedule : List ℕ) (t i r f : ℕ) (call : Call) (below : List Call) (n : Note) (k : Code) (ts : List Value)
        → slice_get (run p (begin p mains) schedule).threads t ≡ Some (record { calls = call ∷ below; mode = mode.Running })
        → call.rest ≡ Do n (plain.Field f) k → T.base call.unit n.place ≡ Some i → call.temps ≡ value.Ref r ∷ ts
        → owner_at (run p (begin p mains) schedule) r ≡ Some t }
{}
