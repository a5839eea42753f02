//! What follows from the definitions alone: the calls do nothing, and their contracts are laws.

ghost use Rattle.std.specs.Prelude.{◌≡◌, ◌<◌, ℕ, List, [], Option, true};
ghost use Rattle.class_faces.specs.declared.face.FieldFace.{FieldFace};
ghost use Rattle.promise_grammar.specs.declared.lock.RegionLockContent.{RegionLockContent};
ghost use Rattle.promise_marks.specs.declared.mark.Mark.{Mark};
ghost use Rattle.region_tree.specs.Faults.{IsFault};
ghost use Rattle.region_tree.specs.declared.decl.RegionDecl.{RegionDecl};
ghost use Rattle.region_tree.specs.declared.fault.RegionError.{RegionError};
ghost use Rattle.region_tree.specs.declared.fault.RegionError.TheVariants as fault;
ghost use Rattle.result_records.specs.declared.code.FindingCode.{FindingCode};
ghost use Rattle.scrub_rules.specs.declared.place.Site.{Site};
ghost use Rattle.header_scrub.specs.Fields.{fields_by};
ghost use Rattle.header_scrub.specs.Header.{Header};
ghost use Rattle.header_scrub.specs.Locks.{Overlap, StandsAt, fits_lock};

/// The regions of a header that stand have no fault: `build` can answer nothing on them but want of
/// memory.
pub fn regions_stand()
    ensures { (site : Site) (fields : List FieldFace) (marks : List Mark) (regions : List RegionDecl) (codes : List (Option FindingCode)) (error : RegionError)
        → Header site fields marks regions codes → IsFault regions [] error → error ≡ fault.OutOfMemory }
{}

/// The field of each lock that stands is there and has the form that a lock's field has.
pub fn lock_fields_fit()
    ensures { (site : Site) (fields : List FieldFace) (marks : List Mark) (regions : List RegionDecl) (codes : List (Option FindingCode)) (i : ℕ) (content : RegionLockContent)
        → Header site fields marks regions codes → StandsAt marks codes i content → fits_lock (fields_by fields) content.holder ≡ true }
{}

/// The regions of two locks that stand don't lie under one another.
pub fn lock_regions_apart()
    ensures { (site : Site) (fields : List FieldFace) (marks : List Mark) (regions : List RegionDecl) (codes : List (Option FindingCode)) (i j : ℕ) (one other : RegionLockContent)
        → Header site fields marks regions codes → i < j → StandsAt marks codes i one → StandsAt marks codes j other → Overlap regions other.region one.region → ⊥ }
{}
