//! What follows from the definitions alone: the calls do nothing, and their contracts are laws.

ghost use Rattle.std.specs.Prelude.{◌≡◌, ◌≢◌, ℕ, List, true};
ghost use Rattle.std.specs.List.{AllByRecursion};
ghost use Rattle.java_tree.specs.declared.file.ClassTree.{ClassTree};
ghost use Rattle.class_faces.specs.Keys.{HasNames};
ghost use Rattle.header_scrub.specs.Fields.{fields_by};
ghost use Rattle.header_scrub.specs.Locks.{Overlap, fits_lock};
ghost use Rattle.promise_grammar.specs.declared.lock.RegionLockContent.{RegionLockContent};
ghost use Rattle.promise_scrub.specs.Standing.{HasLock, IsPut};
ghost use Rattle.promise_scrub.specs.declared.surface.Standing.{Standing};
ghost use Rattle.region_tree.specs.Faults.{IsFault};
ghost use Rattle.region_tree.specs.declared.decl.FieldPut.{FieldPut};
ghost use Rattle.region_tree.specs.declared.fault.RegionError.{RegionError};
ghost use Rattle.region_tree.specs.declared.fault.RegionError.TheVariants as fault;
ghost use Rattle.promise_scrub.specs.declared.surface.Surface.{Surface as Face};
ghost use Rattle.promise_scrub.specs.Alike.{Alike};
ghost use Rattle.result_records.specs.declared.code.FindingCode.{FindingCode};
ghost use Rattle.promise_scrub.specs.declared.surface.Aside.{Aside};
ghost use Rattle.promise_scrub.specs.Counted.{IsAmong, IsCounted};
ghost use Rattle.promise_scrub.specs.Differ.{KeysDiffer};
ghost use Rattle.promise_scrub.specs.Surfaces.{Surface};
ghost use Rattle.promise_scrub.specs.Verdicts.{Annotation, Judged, SetAside, aside_of, asides, judged, standings};

/// A class has one surface.
pub fn one_surface()
    ensures { (class : ClassTree) (a b : Face) → Surface class a → Surface class b → a ≡ b }
{}

/// Two classes have one surface that differ at most in places in the file, in words such as
/// `synchronized`, in what is thrown, in initializers of fields that give these no other form, and in
/// the code of bodies but for which of their own member's parameters it assigns to.
pub fn surfaces_alike()
    ensures { (a b : ClassTree) (face : Face) → Alike a b → Surface a face → Surface b face }
{}

/// No two promises that stand at a unit have one key.
pub fn standing_keys_differ()
    ensures { (key : List ℕ) (annotations : List Annotation) → KeysDiffer (standings key (judged annotations)) }
{}

/// No two promises that stand in a class have one key, at whatever units they stand, where the names of
/// the class are as the grammar has them.
pub fn promise_keys_differ()
    ensures { (class : ClassTree) (face : Face) → HasNames class → Surface class face → KeysDiffer face.standing }
{}

/// The field of each lock that stands is there and has the form that a lock's field has.
pub fn lock_fields_fit()
    ensures { (class : ClassTree) (face : Face) (promise : Standing) (content : RegionLockContent) → Surface class face → HasLock face promise content
        → fits_lock (fields_by face.fields) content.holder ≡ true }
{}

/// The regions of two locks that stand don't lie under one another.
pub fn lock_regions_apart()
    ensures { (class : ClassTree) (face : Face) (one other : Standing) (content held : RegionLockContent) → Surface class face
        → HasLock face one content → HasLock face other held → one.key ≢ other.key → Overlap face.regions content.region held.region → ⊥ }
{}

/// The regions of a surface and its fields, each in the region that an InRegion of it names, have no
/// fault: `build` can answer nothing on them but want of memory.
pub fn regions_build()
    ensures { (class : ClassTree) (face : Face) (puts : List FieldPut) (error : RegionError) → HasNames class → Surface class face
        → AllByRecursion (IsPut face) puts → IsFault face.regions puts error → error ≡ fault.OutOfMemory }
{}

/// The k-th annotation of a unit, of those of which something is left, is listed as set aside under
/// `#k` where it is set aside.
pub fn set_aside_is_listed()
    ensures { (key : List ℕ) (js : List Judged) (k : ℕ) (j : Judged) (code : FindingCode) → IsCounted js k j → j.verdict ≡ SetAside code
        → IsAmong (aside_of key j.annotation.name k code) (asides key 0 js) }
{}

/// Whatever is listed as set aside under `#k` is the k-th annotation of its unit, of those of which
/// something is left, and is set aside.
pub fn listed_is_set_aside()
    ensures { (key : List ℕ) (js : List Judged) (a : Aside) → IsAmong a (asides key 0 js)
        → (k : ℕ) × (j : Judged) × (code : FindingCode) × IsCounted js k j × (j.verdict ≡ SetAside code) × (a ≡ aside_of key j.annotation.name k code) }
{}
