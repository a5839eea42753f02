ghost use Rattle.std.specs.Prelude.{◌≡◌, IfOk};
ghost use Rattle.scrub_rules.specs.Target.{kinds_in};
ghost use Rattle.header_scrub.specs.Fields.{fields_by};
ghost use Rattle.header_scrub.specs.Header.{Header};
ghost use Rattle.header_scrub.specs.Kinds.{lock_kind, region_kind};
ghost use Rattle.header_scrub.specs.Locks.{locks_in};

use crate::fields::lock_fields;
use crate::kinds::{lock_kinds, region_kinds};
use crate::locks::scrub_locks;
use crate::regions::scrub_regions;
use class_faces::FieldFace;
use desk_base::{Items, Name, OutOfMemory};
use promise_marks::Mark;
use region_tree::RegionDecl;
use result_records::FindingCode;
use scrub_rules::Site;
use std::alloc::Global;
use std::collections::BTreeMap;

/// A header whose annotations are judged: the regions that stand, the code of each annotation that
/// is set aside, and whether each region and lock that stands is static, by its name.
#[derive(Drop)]
pub struct ScrubbedHeader {
    pub regions: Items<RegionDecl>,
    pub codes: Items<Option<FindingCode>>,
    pub region_kinds: BTreeMap<Name, bool>,
    pub lock_kinds: BTreeMap<Name, bool>,
}

/// Judges the annotations of a header at a site, over the fields of its class: first the regions,
/// then the locks in written order.
pub fn scrub_header(
    alloc: Global,
    site: Site,
    fields: &[FieldFace],
    marks: &[Mark],
) -> Result<ScrubbedHeader, OutOfMemory>
    ensures header { IfOk result (λ h. Header site fields.now marks.now h.regions h.codes) }
    ensures regions { IfOk result (λ h. kinds_in h.region_kinds ≡ region_kind h.regions) }
    ensures locks { IfOk result (λ h. kinds_in h.lock_kinds ≡ lock_kind (locks_in (fields_by fields.now) marks.now h.codes)) }
{
    let scrubbed = scrub_regions(alloc, site, marks)?;
    let kinds = region_kinds(alloc, scrubbed.regions.as_slice())?;
    let known = lock_fields(alloc, fields)?;
    let header = scrub_locks(
        alloc,
        scrubbed.regions.as_slice(),
        &scrubbed.tree,
        &kinds,
        &known,
        marks,
        scrubbed.codes.as_slice(),
    )?;
    let lock_kinds = lock_kinds(alloc, header.locks.as_slice())?;
    Ok(ScrubbedHeader {
        regions: scrubbed.regions,
        codes: header.codes,
        region_kinds: kinds,
        lock_kinds,
    })
}
