use class_faces::ParamFace;
use desk_base::Name;
use std::collections::BTreeMap;

/// What the promises of a unit are judged in: its class, that one's regions and locks, with whether
/// each is static, whether the unit is a static field, and the parameters that its names mean.
#[derive(Clone, Copy)]
pub struct Context<'a> {
    pub class: &'a Name,
    pub regions: &'a BTreeMap<Name, bool>,
    pub locks: &'a BTreeMap<Name, bool>,
    pub field_static: bool,
    pub params: &'a [ParamFace],
}
