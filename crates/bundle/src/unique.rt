ghost use Rattle.std.specs.Prelude.{◌≡◌, ℕ, List};
ghost use Rattle.bundle.specs.Entry.{Entry};
ghost use Rattle.bundle.specs.Bundle.{IsBundle, BadAt};

/// Bytes are the bundle of one list of files at most.
pub fn one_bundle()
    ensures { (bytes : List ℕ) (first second : List Entry) → IsBundle first bytes → IsBundle second bytes → first ≡ second }
{}

/// Bytes have one place of fault at most, and a bundle has none.
pub fn one_fault()
    ensures place { (bytes : List ℕ) (first second : ℕ) → BadAt bytes first → BadAt bytes second → first ≡ second }
    ensures apart { (bytes : List ℕ) (files : List Entry) (at : ℕ) → IsBundle files bytes → BadAt bytes at → ⊥ }
{}
