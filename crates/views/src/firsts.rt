//! Maps from keys to the first of a list's elements that has the key.

ghost use Rattle.std.specs.Prelude.{◌≡◌, IfOk};
ghost use Rattle.views.specs.Indexes.{AssumedFrom, FieldsFrom, LocksFrom, MembersFrom, NamesFrom, PutsFrom, StandingFrom};

use crate::contents::{lock_content, region_content};
use class_faces::{FieldFace, MemberFace};
use desk_base::{Name, OutOfMemory, PromiseKey, Text};
use promise_scrub::{Assumption, Standing};
use std::alloc::Global;
use std::collections::BTreeMap;

/// The places of names.
pub(crate) fn index_names(
    alloc: Global,
    names: &[Name],
) -> Result<BTreeMap<Name, usize>, OutOfMemory>
    ensures { IfOk result (λ index. NamesFrom index 0 names.now) }
{
    let mut index = BTreeMap::new(alloc);
    let mut at = names.len();
    while at > 0 {
        at -= 1;
        let name = names[at].clone()?;
        index.insert(name, at)?;
    }
    Ok(index)
}

/// The places of texts.
pub(crate) fn index_texts(
    alloc: Global,
    texts: &[Text],
) -> Result<BTreeMap<Text, usize>, OutOfMemory>
    ensures { IfOk result (λ index. NamesFrom index 0 texts.now) }
{
    let mut index = BTreeMap::new(alloc);
    let mut at = texts.len();
    while at > 0 {
        at -= 1;
        let text = texts[at].clone()?;
        index.insert(text, at)?;
    }
    Ok(index)
}

/// The places of fields by their names.
pub(crate) fn index_fields(
    alloc: Global,
    fields: &[FieldFace],
) -> Result<BTreeMap<Name, usize>, OutOfMemory>
    ensures { IfOk result (λ index. FieldsFrom index 0 fields.now) }
{
    let mut index = BTreeMap::new(alloc);
    let mut at = fields.len();
    while at > 0 {
        at -= 1;
        let name = fields[at].name.clone()?;
        index.insert(name, at)?;
    }
    Ok(index)
}

/// The places of members by their keys.
pub(crate) fn index_members(
    alloc: Global,
    members: &[MemberFace],
) -> Result<BTreeMap<Text, usize>, OutOfMemory>
    ensures { IfOk result (λ index. MembersFrom index 0 members.now) }
{
    let mut index = BTreeMap::new(alloc);
    let mut at = members.len();
    while at > 0 {
        at -= 1;
        let key = members[at].key.clone()?;
        index.insert(key, at)?;
    }
    Ok(index)
}

/// The places of promises that stand, by their keys.
pub(crate) fn index_standing(
    alloc: Global,
    standing: &[Standing],
) -> Result<BTreeMap<PromiseKey, usize>, OutOfMemory>
    ensures { IfOk result (λ index. StandingFrom index 0 standing.now) }
{
    let mut index = BTreeMap::new(alloc);
    let mut at = standing.len();
    while at > 0 {
        at -= 1;
        let key = standing[at].key.clone()?;
        index.insert(key, at)?;
    }
    Ok(index)
}

/// The places of assumptions by the keys of the assumed promises.
pub(crate) fn index_assumed(
    alloc: Global,
    assumptions: &[Assumption],
) -> Result<BTreeMap<PromiseKey, usize>, OutOfMemory>
    ensures { IfOk result (λ index. AssumedFrom index 0 assumptions.now) }
{
    let mut index = BTreeMap::new(alloc);
    let mut at = assumptions.len();
    while at > 0 {
        at -= 1;
        let key = assumptions[at].key.clone()?;
        index.insert(key, at)?;
    }
    Ok(index)
}

/// The places of promises that give locks, by the names of these.
pub(crate) fn index_locks(
    alloc: Global,
    standing: &[Standing],
) -> Result<BTreeMap<Name, usize>, OutOfMemory>
    ensures { IfOk result (λ index. LocksFrom index 0 standing.now) }
{
    let mut index = BTreeMap::new(alloc);
    let mut at = standing.len();
    while at > 0 {
        at -= 1;
        let promise = &standing[at];
        if let Some(content) = lock_content(promise) {
            let name = content.name.clone()?;
            index.insert(name, at)?;
        }
    }
    Ok(index)
}

/// The places of promises that put a field in a region, by the keys of the fields.
pub(crate) fn index_puts(
    alloc: Global,
    standing: &[Standing],
) -> Result<BTreeMap<Text, usize>, OutOfMemory>
    ensures { IfOk result (λ index. PutsFrom index 0 standing.now) }
{
    let mut index = BTreeMap::new(alloc);
    let mut at = standing.len();
    while at > 0 {
        at -= 1;
        let promise = &standing[at];
        if region_content(promise).is_some() {
            let key = promise.key.target.clone()?;
            index.insert(key, at)?;
        }
    }
    Ok(index)
}
