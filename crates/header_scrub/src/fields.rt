ghost use Rattle.std.specs.Prelude.{◌≡◌, IfOk, OnOk};
ghost use Rattle.header_scrub.specs.Fields.{HasFields, PutsField};

use crate::lock::LockField;
use class_faces::FieldFace;
use desk_base::{Name, OutOfMemory};
use std::alloc::Global;
use std::collections::BTreeMap;

fn put_field(known: &mut BTreeMap<Name, LockField>, field: &FieldFace) -> Result<(), OutOfMemory>
    ensures { OnOk result (PutsField known.old known.new field.now) }
{
    if !known.contains_key(&field.name) {
        let shown = LockField {
            is_static: field.is_static,
            lock_form: field.lock_form,
        };
        known.insert(field.name.clone()?, shown)?;
    }
    Ok(())
}

/// What locks ask of the fields of a class; of two fields of one name the first counts.
pub(crate) fn lock_fields(
    alloc: Global,
    fields: &[FieldFace],
) -> Result<BTreeMap<Name, LockField>, OutOfMemory>
    ensures { IfOk result (λ known. HasFields known fields.now) }
{
    let mut known = BTreeMap::new(alloc);
    for field in fields {
        put_field(&mut known, field)?;
    }
    Ok(known)
}
