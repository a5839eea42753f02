ghost use Rattle.std.specs.Prelude.{◌≡◌, ◌≤◌, ℕ, true, false, Some, None, length, slice_get};
ghost use Rattle.core_model.specs.Code.{Code, Done, Do};
ghost use Rattle.core_model.specs.Units.{unit_number};
ghost use Rattle.core_model.specs.declared.program.TheConstants.{NEW};
ghost use Rattle.core_model.specs.declared.instr.Note.{Note};
ghost use Rattle.core_model.specs.declared.instr.Plain.TheVariants as plain;
ghost use Rattle.core_model.specs.declared.program.Program.{Program};
ghost use Rattle.core_model.specs.declared.program.ClassInfo.{ClassInfo};
ghost use Rattle.core_model.specs.declared.program.UnitName.{UnitName};
ghost use Rattle.core_model.specs.declared.program.UnitCode.{UnitCode};
ghost use Rattle.core_model.specs.declared.value.Value.{Value};
ghost use Rattle.core_model.specs.declared.value.Value.TheVariants as value;
ghost use Rattle.core_laws.specs.Constructors.{new_uncalled};
ghost use Rattle.core_laws.specs.Places.{Always};
ghost use Rattle.core_types.specs.Types.{Ty, IntType, Types, of_unit, args_of, locals_of};
ghost use Rattle.core_types.specs.Uses.{lists_name};
ghost use Rattle.core_types.specs.Programs.{UnitFits, ProgramFits};

/// No types make these units well typed: one whose code negates a boolean as an int, sets a local of
/// type int to null, reads a local that isn't set, leaves a temporary at its end, comes to its end
/// though it has a result, gives a result though it has none, or calls a constructor. An object that
/// is made without a constructor has no arguments, and its class lists no constructor. A unit's class
/// is the one that lists it. No place of a well typed unit's code calls a constructor but to make an
/// object.
pub fn ill_typed_code_is_refused()
    ensures negated { (p : Program) (T : Types) (u : ℕ) (code : UnitCode) (n m : Note) (k : Code) → UnitFits p T u code
        → code.code ≡ Do n (plain.Const (value.Bool true)) (Do m plain.Neg k) → ⊥ }
    ensures null { (p : Program) (T : Types) (u : ℕ) (code : UnitCode) (n m : Note) (i : ℕ) (k : Code) → UnitFits p T u code
        → slice_get (locals_of (of_unit T u)) i ≡ Some IntType → code.code ≡ Do n (plain.Const value.Null) (Do m (plain.Set i) k) → ⊥ }
    ensures unset { (p : Program) (T : Types) (u : ℕ) (code : UnitCode) (n : Note) (i : ℕ) (k : Code) → UnitFits p T u code
        → length (args_of (of_unit T u)) ≤ i → code.code ≡ Do n (plain.Get i) k → ⊥ }
    ensures over { (p : Program) (T : Types) (u : ℕ) (code : UnitCode) (n : Note) (v : Value) → UnitFits p T u code
        → code.code ≡ Do n (plain.Const v) Done → ⊥ }
    ensures unended { (p : Program) (T : Types) (u : ℕ) (code : UnitCode) (t : Ty) → UnitFits p T u code
        → (of_unit T u).result ≡ Some t → code.code ≡ Done → ⊥ }
    ensures given { (p : Program) (T : Types) (u : ℕ) (code : UnitCode) (n : Note) (k : Code) → UnitFits p T u code
        → (of_unit T u).result ≡ None → code.code ≡ Do n plain.ReturnValue k → ⊥ }
    ensures called { (p : Program) (T : Types) (u : ℕ) (code : UnitCode) (n : Note) (a : ℕ) (k : Code) → UnitFits p T u code
        → code.code ≡ Do n (plain.Call NEW a) k → ⊥ }
    ensures made { (p : Program) (T : Types) (u : ℕ) (code : UnitCode) (n : Note) (c a : ℕ) (info : ClassInfo) (k : Code) → UnitFits p T u code
        → slice_get p.classes c ≡ Some info → unit_number p c NEW a ≡ None → code.code ≡ Do n (plain.Make c a) k
        → (a ≡ 0) × (lists_name NEW info.units ≡ false) }
    ensures listed { (p : Program) (T : Types) (c i : ℕ) (info : ClassInfo) (m : UnitName) (code : UnitCode) → ProgramFits p T
        → slice_get p.classes c ≡ Some info → slice_get info.units i ≡ Some m → slice_get p.units m.unit ≡ Some code → code.class ≡ c }
    ensures uncalled { (p : Program) (T : Types) (u : ℕ) (code : UnitCode) → UnitFits p T u code
        → Always (λ k. new_uncalled k ≡ true) code.code }
{}
