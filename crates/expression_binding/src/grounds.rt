use crate::places::Places;
use desk_base::Name;
use std::alloc::Global;

/// Where an expression stands: the types that it is bound under, the own class, whether the place is
/// static (there is no `this`), and the unit's tokens.
#[derive(Drop)]
pub struct Ground<'g, T> {
    pub types: &'g T,
    pub class: &'g Name,
    pub is_static: bool,
    pub places: &'g Places<'g>,
    pub alloc: Global,
}
