ghost use Rattle.std.specs.Prelude.{◌≡◌, ◌∷◌, [], IfOk};
ghost use Rattle.class_faces.specs.Faces.{field_faces};
ghost use Rattle.scrub_rules.specs.Facts.{facts_of};
ghost use Rattle.scrub_rules.specs.Target.{kinds_in};
ghost use Rattle.promise_scrub.specs.Found as units;
ghost use Rattle.promise_scrub.specs.Surfaces as spec;

use crate::assume::assumptions_of;
use crate::found::Found;
use crate::gather::{ClassFacts, all_marks, header_unit, names_of, put_members, put_unit};
use crate::spread::scoped_of;
use crate::surface::Surface;
use class_faces::{FieldFace, field_faces, member_faces, member_keys, text_of};
use desk_base::{Items, OutOfMemory};
use header_scrub::{ScrubbedHeader, scrub_header};
use java_tree::ClassTree;
use promise_marks::{Mark, header_marks};
use result_records::FindingCode;
use scrub_rules::{Context, header_site};
use std::alloc::Global;

// What is found in the header.
fn found_in_header(
    alloc: Global,
    class: &ClassTree,
    at: &Context<'_>,
    header: &[Mark],
    codes: &[Option<FindingCode>],
) -> Result<Found, OutOfMemory>
    ensures { IfOk result (λ found. found ≡ units.found_in units.found_nothing (spec.header_unit_in class.now (facts_of at.now) header.now codes.now ∷ [])) }
{
    let key = text_of(alloc, class.name.text.as_slice())?;
    let unit = header_unit(alloc, at, &key, header_site(class.kind), header, codes)?;
    let mut found = Found {
        standing: Items::new(alloc),
        aside: Items::new(alloc),
        vouched: Items::new(alloc),
    };
    put_unit(&mut found, &key, unit)?;
    Ok(found)
}

// What is found in the header and then in the members.
fn found_in(
    alloc: Global,
    class: &ClassTree,
    at: &Context<'_>,
    header: &[Mark],
    members: &[Items<Mark>],
    codes: &[Option<FindingCode>],
) -> Result<Found, OutOfMemory>
    requires { facts_of at.now ≡ spec.class_facts class.now.name.text (kinds_in at.now.regions.now) (kinds_in at.now.locks.now) }
    ensures { IfOk result (λ found. found ≡ units.found_in units.found_nothing (spec.units_of class.now header.now members.now (kinds_in at.now.regions.now) (kinds_in at.now.locks.now) codes.now)) }
{
    let mut found = found_in_header(alloc, class, at, header, codes)?;
    let scoped = scoped_of(alloc, header_site(class.kind), header)?;
    let keys = member_keys(alloc, class)?;
    let facts = ClassFacts {
        class: &class.name.text,
        regions: at.regions,
        locks: at.locks,
        scoped: scoped.as_slice(),
    };
    let trees = class.members.as_slice();
    put_members(alloc, &facts, keys.as_slice(), members, trees, &mut found)?;
    Ok(found)
}

fn face_of(
    alloc: Global,
    class: &ClassTree,
    header: &[Mark],
    members: &[Items<Mark>],
    fields: Items<FieldFace>,
    scrubbed: ScrubbedHeader,
) -> Result<Surface, OutOfMemory>
    requires { fields ≡ field_faces class.now }
    ensures { IfOk result (λ face. face ≡ spec.face_with class.now header.now members.now scrubbed.regions (kinds_in scrubbed.region_kinds) (kinds_in scrubbed.lock_kinds) scrubbed.codes) }
{
    let at = Context {
        class: &class.name.text,
        regions: &scrubbed.region_kinds,
        locks: &scrubbed.lock_kinds,
        field_static: false,
        params: &[],
    };
    let codes = scrubbed.codes.as_slice();
    let found = found_in(alloc, class, &at, header, members, codes)?;
    let assumptions = assumptions_of(alloc, &at, header, codes)?;
    Ok(Surface {
        kind: class.kind,
        name: class.name.text.clone()?,
        implements: names_of(alloc, class.implements.as_slice())?,
        fields,
        members: member_faces(alloc, class)?,
        regions: scrubbed.regions,
        standing: found.standing,
        aside: found.aside,
        assumptions,
        vouched: found.vouched,
    })
}

/// What a class says to the others, from its tree alone: its kind, names, fields and members, the
/// regions and promises that stand after scoped ones are spread, those set aside with the rule that
/// they break, its assumptions and its vouched units. Places in the file, whether a method is
/// synchronized, and the code of a body but which names it assigns to are no part of it.
pub fn surface_of(alloc: Global, class: &ClassTree) -> Result<Surface, OutOfMemory>
    ensures { IfOk result (spec.Surface class.now) }
{
    let header = header_marks(alloc, class)?;
    let members = all_marks(alloc, class.members.as_slice())?;
    let fields = field_faces(alloc, class)?;
    let site = header_site(class.kind);
    let scrubbed = scrub_header(alloc, site, fields.as_slice(), header.as_slice())?;
    face_of(
        alloc,
        class,
        header.as_slice(),
        members.as_slice(),
        fields,
        scrubbed,
    )
}
