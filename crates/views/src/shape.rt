ghost use Rattle.std.specs.Prelude.{◌≡◌, IfOk};
ghost use Rattle.std.specs.List.{position_from};
ghost use Rattle.views.specs.Indexed.{IsShape, constructor_is};
ghost use Rattle.views.specs.Looks as spec;

use crate::firsts::{index_fields, index_members, index_names};
use class_faces::{MemberFace, text_of};
use desk_base::{Bytes, Name, OutOfMemory, Text};
use promise_scrub::Surface;
use std::alloc::Global;
use std::collections::BTreeMap;

/// Where the interfaces, fields and members of a surface are in its lists: the first of each name or
/// key, and the first constructor.
#[derive(Drop)]
pub(crate) struct Shape {
    pub(crate) implements: BTreeMap<Name, usize>,
    pub(crate) fields: BTreeMap<Name, usize>,
    pub(crate) members: BTreeMap<Text, usize>,
    pub(crate) constructor: Option<usize>,
}

/// What the keys of a class's constructors begin with.
fn constructor_front(alloc: Global, class: &Name) -> Result<Text, OutOfMemory>
    ensures { IfOk result (λ front. front ≡ spec.constructor_front class.now) }
{
    let mut front = Bytes::from_slice(alloc, class.as_slice())?;
    front.append(b".new/")?;
    text_of(alloc, front.as_slice())
}

fn find_constructor(front: &Text, members: &[MemberFace]) -> Option<usize>
    ensures { result ≡ position_from (constructor_is front.now) 0 members.now }
{
    for (at, member) in members.iter().enumerate() {
        if member.key.as_slice().starts_with(front.as_slice()) {
            return Some(at);
        }
    }
    None
}

/// The shape of a surface.
pub(crate) fn shape_of(alloc: Global, surface: &Surface) -> Result<Shape, OutOfMemory>
    ensures { IfOk result (IsShape surface.now) }
{
    let front = constructor_front(alloc, &surface.name)?;
    let constructor = find_constructor(&front, surface.members.as_slice());
    let implements = index_names(alloc, surface.implements.as_slice())?;
    let fields = index_fields(alloc, surface.fields.as_slice())?;
    let members = index_members(alloc, surface.members.as_slice())?;
    Ok(Shape {
        implements,
        fields,
        members,
        constructor,
    })
}
