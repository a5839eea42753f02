use crate::surface::{Aside, Standing};
use desk_base::{Items, Text};

/// What was found in units, one after another.
#[derive(Drop)]
pub(crate) struct Found {
    pub(crate) standing: Items<Standing>,
    pub(crate) aside: Items<Aside>,
    pub(crate) vouched: Items<Text>,
}
