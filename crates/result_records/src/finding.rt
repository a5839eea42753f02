ghost use Rattle.std.specs.Prelude.{◌≡◌, [], ◌↔◌, IsTrue};

use crate::code::FindingCode;
use desk_base::{Items, Name, PromiseKey, Text};

/// Which finding: its code, its number, from 1, among the findings of that code, unit and promise,
/// the key of the unit where it is, and the promise that it is a clause of.
#[derive(Clone, Debug, PartialEq, Eq, Drop)]
pub struct FindingKey {
    pub code: FindingCode,
    pub number: u32,
    pub unit: Text,
    pub on: PromiseKey,
}

/// Which vouch: one that is written in the source, by the unit where it stands, or one that was
/// given to the desk, by the written key of the finding.
#[derive(Clone, Debug, PartialEq, Eq, Drop)]
pub enum VouchKey {
    Source { unit: Text },
    Desk { finding: Text },
}

/// What a finding may rest on: a promise, a vouch, or a promise that a class assumes.
#[derive(Clone, Debug, PartialEq, Eq, Drop)]
pub enum FindingLink {
    Promise(PromiseKey),
    Vouched(VouchKey),
    Assumed { class: Name, promise: PromiseKey },
}

/// A way in which a finding holds: where all of its links hold. One without links always does.
pub type Alternative = Items<FindingLink>;

/// A clause of the promise `key.on`. It holds where one of its alternatives does. `place` is the
/// number, from 1, of a token of the unit.
#[derive(Debug, Drop)]
pub struct Finding {
    pub key: FindingKey,
    pub place: u32,
    pub subject: Text,
    pub alternatives: Items<Alternative>,
}

impl Finding {
    /// Whether there is no way in which the finding holds. It takes no memory.
    pub fn fails(&self) -> bool
        ensures { IsTrue result ↔ (self.now.alternatives ≡ []) }
    {
        self.alternatives.is_empty()
    }
}
