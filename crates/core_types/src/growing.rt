ghost use Rattle.std.specs.Prelude.{◌≡◌, ℕ, Bool, true, false, List};
ghost use Rattle.core_model.specs.declared.program.Program.{Program};
ghost use Rattle.core_model.specs.Code.{Code, ◌⧺◌};
ghost use Rattle.core_types.specs.Types.{Ty, Types, UnitTypes};
ghost use Rattle.core_types.specs.Need.{need, Fits};
ghost use Rattle.core_types.specs.Paths.{reads, ends};

/// What two pieces of code need, one after the other, is what the first needs where the second comes
/// after it; so it is with fitting and with reading locals. Where the two together may come to an end,
/// the first may, with the second after it; and where more may end after code, more may end by it.
pub fn code_is_typed_by_parts()
    ensures needs { (p : Program) (T : Types) (u : UnitTypes) (a k : Code) (after : List Ty)
        → need p T u (a ⧺ k) after ≡ need p T u a (need p T u k after) }
    ensures fits { (p : Program) (T : Types) (u : UnitTypes) (a k : Code) (after : List Ty)
        → Fits p T u a (need p T u k after) → Fits p T u k after → Fits p T u (a ⧺ k) after }
    ensures reading { (i : ℕ) (a k : Code) (after : Bool) → reads i (a ⧺ k) after ≡ reads i a (reads i k after) }
    ensures ending { (known : Bool) (a k : Code) (after : Bool) → ends known (a ⧺ k) after ≡ true → ends known a (ends false k after) ≡ true }
    ensures more { (known : Bool) (k : Code) (less more : Bool) → (less ≡ true → more ≡ true) → ends known k less ≡ true → ends known k more ≡ true }
{}
