use crate::lock::Need;
use desk_base::{Items, Text};
use result_records::FindingLink;

/// A RequiresLock promise that stands at the unit that is judged, with the number of the token at which
/// its annotation begins; 1 where it was spread.
#[derive(Drop)]
pub struct OwnNeed {
    pub need: Need,
    pub place: u32,
}

/// What the promises of a unit say for its own code: its key, whether it is static, the locks that it
/// requires of its callers, and, of a constructor, the link of its promise that its `this` goes nowhere.
#[derive(Drop)]
pub struct Own {
    pub key: Text,
    pub is_static: bool,
    pub needs: Items<OwnNeed>,
    pub confined: Option<FindingLink>,
}
