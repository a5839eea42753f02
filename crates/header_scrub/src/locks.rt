ghost use Rattle.std.specs.Prelude.{◌≡◌, ◌↔◌, ◌⊎◌, ◌<◌, ◌++◌, ℕ, List, [], length, not, IsTrue, IfOk, OnOk, is_some};
ghost use Rattle.std.specs.Bool.{OnTrue, OnFalse};
ghost use Rattle.std.specs.Option.{option_copied};
ghost use Rattle.promise_grammar.specs.declared.tree.PromiseTree.{out-PromiseTree};
ghost use Rattle.region_tree.specs.Disjoint.{AreOf, IsHeld};
ghost use Rattle.region_tree.specs.Regions.{number_of, parents_of};
ghost use Rattle.region_tree.specs.Tree.{parents_in, region_in as region_at};
ghost use Rattle.scrub_rules.specs.Target.{kinds_in};
ghost use Rattle.header_scrub.specs.Locks as spec;
ghost use Rattle.header_scrub.specs.Fields.{fields_in};
ghost use Rattle.header_scrub.specs.Locks.{AreLockCodes, HeldOverlaps, HoldsRegions, IsCodeAfter, IsLockCode};

use crate::lock::{Lock, LockField};
use crate::regions::is_root;
use crate::table::LockTable;
use desk_base::{Items, Name, OutOfMemory};
use promise_grammar::{LockHolder, PromiseTree, RegionLockContent, Shared};
use promise_marks::Mark;
use region_tree::{DisjointRegions, RegionDecl, RegionTree};
use result_records::FindingCode;
use std::alloc::Global;
use std::collections::BTreeMap;

fn kind_in(kinds: &BTreeMap<Name, bool>, name: &Name) -> Option<bool>
    ensures { result ≡ kinds_in kinds.now name.now }
{
    kinds.get(name).copied()
}

fn field_in(fields: &BTreeMap<Name, LockField>, name: &Name) -> Option<LockField>
    ensures { result ≡ fields_in fields.now name.now }
{
    fields.get(name).copied()
}

fn is_static_field(field: Option<LockField>) -> bool
    ensures { result ≡ spec.is_static_field field }
{
    match field {
        None => false,
        Some(field) => field.is_static,
    }
}

fn is_instance_field(field: Option<LockField>) -> bool
    ensures { result ≡ spec.is_instance_field field }
{
    match field {
        None => false,
        Some(field) => !field.is_static,
    }
}

fn has_lock_form(field: Option<LockField>) -> bool
    ensures { result ≡ spec.has_lock_form field }
{
    match field {
        None => false,
        Some(field) => field.lock_form,
    }
}

fn is_static_lock(fields: &BTreeMap<Name, LockField>, holder: &LockHolder) -> bool
    ensures { result ≡ spec.is_static_lock (fields_in fields.now) holder.now }
{
    match holder {
        LockHolder::This => false,
        LockHolder::Class => true,
        LockHolder::Field(name) => is_static_field(field_in(fields, name)),
        LockHolder::ThisField(name) => is_static_field(field_in(fields, name)),
    }
}

fn is_instance_lock(fields: &BTreeMap<Name, LockField>, holder: &LockHolder) -> bool
    ensures { result ≡ spec.is_instance_lock (fields_in fields.now) holder.now }
{
    match holder {
        LockHolder::This => true,
        LockHolder::Class => false,
        LockHolder::Field(name) => is_instance_field(field_in(fields, name)),
        LockHolder::ThisField(name) => is_instance_field(field_in(fields, name)),
    }
}

fn mixes_form(fields: &BTreeMap<Name, LockField>, holder: &LockHolder) -> bool
    ensures { result ≡ spec.mixes_form (fields_in fields.now) holder.now }
{
    match holder {
        LockHolder::ThisField(name) => is_static_field(field_in(fields, name)),
        _ => false,
    }
}

fn fits_lock(fields: &BTreeMap<Name, LockField>, holder: &LockHolder) -> bool
    ensures { result ≡ spec.fits_lock (fields_in fields.now) holder.now }
{
    match holder {
        LockHolder::This => true,
        LockHolder::Class => true,
        LockHolder::Field(name) => has_lock_form(field_in(fields, name)),
        LockHolder::ThisField(name) => has_lock_form(field_in(fields, name)),
    }
}

fn by_kind(
    fields: &BTreeMap<Name, LockField>,
    holder: &LockHolder,
    kind: Option<bool>,
) -> Option<FindingCode>
    ensures { result ≡ spec.by_kind (fields_in fields.now) holder.now kind }
{
    match kind {
        None => Some(FindingCode::UnknownRegion),
        Some(is_static) if is_static && is_instance_lock(fields, holder) => {
            Some(FindingCode::MixedKinds)
        }
        Some(_) if fits_lock(fields, holder) => None,
        Some(_) => Some(FindingCode::BadLockField),
    }
}

// The first code of a RegionLock but that of overlapping regions.
fn early_code(
    kinds: &BTreeMap<Name, bool>,
    fields: &BTreeMap<Name, LockField>,
    locks: &LockTable,
    content: &RegionLockContent,
) -> Option<FindingCode>
    ensures { result ≡ spec.early_code (kinds_in kinds.now) (fields_in fields.now) locks.now content.now }
{
    if mixes_form(fields, &content.holder) {
        return Some(FindingCode::BadPlace);
    }
    if locks.has(&content.name) || is_root(&content.name) {
        return Some(FindingCode::NameUsedTwice);
    }
    by_kind(fields, &content.holder, kind_in(kinds, &content.region))
}

// The locks of a header that stand so far, and their regions.
#[derive(Drop)]
struct StandingLocks {
    table: LockTable,
    held: DisjointRegions,
}

// Whether the region of the name overlaps one that is held. Where it overlaps none, it is held
// from now on.
fn overlaps_held(
    declared: &[RegionDecl],
    tree: &RegionTree,
    region: &Name,
    held: &mut DisjointRegions,
) -> bool
    requires parents { parents_in tree.now ≡ parents_of declared.now }
    requires regions { (name : List ℕ) → region_at tree.now name ≡ number_of declared.now name }
    requires of { AreOf (parents_of declared.now) held.old }
    ensures some { OnTrue result (HeldOverlaps declared.now held.old region.now) }
    ensures none { OnFalse result (HeldOverlaps declared.now held.old region.now → ⊥) }
    ensures held { (k : ℕ) → IsHeld held.new k ↔ (IsHeld held.old k ⊎ (IsTrue (not result) × (number_of declared.now region.now ≡ Some k))) }
    ensures of { AreOf (parents_of declared.now) held.new }
{
    match tree.region(region) {
        Some(number) => !held.add(tree, number),
        None => false,
    }
}

// The code of a RegionLock after these locks stand. Where it has none, its region is held from now
// on.
fn lock_code(
    declared: &[RegionDecl],
    tree: &RegionTree,
    kinds: &BTreeMap<Name, bool>,
    fields: &BTreeMap<Name, LockField>,
    locks: &mut StandingLocks,
    content: &RegionLockContent,
) -> Option<FindingCode>
    requires parents { parents_in tree.now ≡ parents_of declared.now }
    requires regions { (name : List ℕ) → region_at tree.now name ≡ number_of declared.now name }
    requires holds { HoldsRegions declared.now locks.old.held locks.old.table }
    ensures code { IsLockCode declared.now (kinds_in kinds.now) (fields_in fields.now) locks.old.table content.now result }
    ensures table { locks.new.table ≡ locks.old.table }
    ensures holds { HoldsRegions declared.now locks.new.held (spec.locks_with (fields_in fields.now) locks.old.table content.now result) }
{
    let early = early_code(kinds, fields, &locks.table, content);
    if early.is_some() {
        return early;
    }
    if overlaps_held(declared, tree, &content.region, &mut locks.held) {
        Some(FindingCode::OverlappingRegions)
    } else {
        None
    }
}

fn lock_of(
    fields: &BTreeMap<Name, LockField>,
    content: &RegionLockContent,
) -> Result<Lock, OutOfMemory>
    ensures { IfOk result (λ lock. lock ≡ spec.lock_of (fields_in fields.now) content.now) }
{
    Ok(Lock {
        name: content.name.clone()?,
        is_static: is_static_lock(fields, &content.holder),
        region: content.region.clone()?,
    })
}

// The lock of a content, if it is one.
fn lock_in(tree: &PromiseTree) -> Option<&RegionLockContent>
    ensures { option_copied result ≡ spec.lock_in (out-PromiseTree tree.now) }
{
    match tree {
        PromiseTree::RegionLock(content) => Some(content),
        _ => None,
    }
}

// The lock that an annotation with no code yet gives.
fn lock_by(
    before: Option<FindingCode>,
    tree: &Option<Shared<PromiseTree>>,
) -> Option<&RegionLockContent>
    ensures { option_copied result ≡ spec.lock_by before tree.now }
{
    match (before, tree) {
        (None, Some(tree)) => lock_in(tree.get()),
        _ => None,
    }
}

// One annotation of a header: its code, and the locks that stand after it.
fn put_lock(
    declared: &[RegionDecl],
    tree: &RegionTree,
    kinds: &BTreeMap<Name, bool>,
    fields: &BTreeMap<Name, LockField>,
    before: Option<FindingCode>,
    mark: &Mark,
    locks: &mut StandingLocks,
) -> Result<Option<FindingCode>, OutOfMemory>
    requires parents { parents_in tree.now ≡ parents_of declared.now }
    requires regions { (name : List ℕ) → region_at tree.now name ≡ number_of declared.now name }
    requires holds { HoldsRegions declared.now locks.old.held locks.old.table }
    ensures code { IfOk result (λ after. IsCodeAfter declared.now (kinds_in kinds.now) (fields_in fields.now) locks.old.table before (spec.lock_by before mark.now.tree) after) }
    ensures table { IfOk result (λ after. locks.new.table ≡ locks.old.table ++ spec.lock_given (fields_in fields.now) (spec.lock_by after mark.now.tree)) }
    ensures holds { OnOk result (HoldsRegions declared.now locks.new.held locks.new.table) }
{
    let Some(content) = lock_by(before, &mark.tree) else {
        return Ok(before);
    };
    let code = lock_code(declared, tree, kinds, fields, locks, content);
    if code.is_none() {
        locks.table.push(lock_of(fields, content)?)?;
    }
    Ok(code)
}

/// The locks of a header that stand, and the codes of its annotations after its locks are judged.
#[derive(Drop)]
pub(crate) struct HeaderLocks {
    pub(crate) locks: Items<Lock>,
    pub(crate) codes: Items<Option<FindingCode>>,
}

/// Judges the locks of a header one after another, over the codes so far. `kinds` has the class's
/// regions, with whether each is static.
pub(crate) fn scrub_locks(
    alloc: Global,
    declared: &[RegionDecl],
    tree: &RegionTree,
    kinds: &BTreeMap<Name, bool>,
    fields: &BTreeMap<Name, LockField>,
    marks: &[Mark],
    codes: &[Option<FindingCode>],
) -> Result<HeaderLocks, OutOfMemory>
    requires parents { parents_in tree.now ≡ parents_of declared.now }
    requires regions { (name : List ℕ) → region_at tree.now name ≡ number_of declared.now name }
    requires long { length codes.now ≡ length marks.now }
    ensures codes { IfOk result (λ header. AreLockCodes declared.now (kinds_in kinds.now) (fields_in fields.now) marks.now codes.now header.codes) }
    ensures locks { IfOk result (λ header. header.locks ≡ spec.locks_in (fields_in fields.now) marks.now header.codes) }
{
    let mut locks = StandingLocks {
        table: LockTable::new(alloc),
        held: DisjointRegions::new(alloc, tree)?,
    };
    let mut after = Items::new(alloc);
    for (i, mark) in marks.iter().enumerate() {
        let code = put_lock(declared, tree, kinds, fields, codes[i], mark, &mut locks)?;
        after.push(code)?;
    }
    Ok(HeaderLocks {
        locks: locks.table.into_items(),
        codes: after,
    })
}
