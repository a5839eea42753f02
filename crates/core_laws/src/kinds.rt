ghost use Rattle.std.specs.Prelude.{◌≡◌, ℕ, List, Some};
ghost use Rattle.core_model.specs.declared.program.Program.{Program};
ghost use Rattle.core_model.specs.declared.config.Config.{Config};
ghost use Rattle.core_model.specs.declared.object.ObjKind.{ObjKind};
ghost use Rattle.core_model.specs.Begin.{begin};
ghost use Rattle.core_model.specs.Step.{run, step};
ghost use Rattle.core_laws.specs.Shape.{kind_at, Shaped};

/// An object stays what it is, whatever steps; and in every run the first objects are the holders of
/// the classes in order, and each object has exactly the fields of what it is.
pub fn objects_keep_their_kinds()
    ensures stays { (p : Program) (c : Config) (t r : ℕ) (k : ObjKind) → kind_at c r ≡ Some k → kind_at (step p c t) r ≡ Some k }
    ensures shaped { (p : Program) (mains schedule : List ℕ) → Shaped p (run p (begin p mains) schedule) }
{}
