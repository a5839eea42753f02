ghost use Rattle.std.specs.Prelude.{◌≡◌, codes};
ghost use Rattle.desk_base.specs.Key.{name_text};

use crate::text::Text;

/// The eleven kinds of promises, and `Program`, which stands for the project itself. They come in
/// the order of the bytes of their names.
#[derive(Clone, Copy, Debug, PartialEq, Eq, PartialOrd, Ord)]
pub enum PromiseName {
    Assume,
    Borrowed,
    InRegion,
    Program,
    Promise,
    Region,
    RegionEffects,
    RegionLock,
    RequiresLock,
    Starts,
    Unique,
    Vouch,
}

impl PromiseName {
    /// The name as it is written in an annotation and in a report.
    pub fn text(self) -> &'static str
        ensures { result.now ≡ name_text self }
    {
        match self {
            PromiseName::Assume => "Assume",
            PromiseName::Borrowed => "Borrowed",
            PromiseName::InRegion => "InRegion",
            PromiseName::Program => "Program",
            PromiseName::Promise => "Promise",
            PromiseName::Region => "Region",
            PromiseName::RegionEffects => "RegionEffects",
            PromiseName::RegionLock => "RegionLock",
            PromiseName::RequiresLock => "RequiresLock",
            PromiseName::Starts => "Starts",
            PromiseName::Unique => "Unique",
            PromiseName::Vouch => "Vouch",
        }
    }
}

/// Which promise: the unit or class that it is a promise of, its kind, and what tells it from
/// others of that kind there. `Program` has an empty target and an empty detail.
#[derive(Clone, Debug, PartialEq, Eq, PartialOrd, Ord, Drop)]
pub struct PromiseKey {
    pub target: Text,
    pub name: PromiseName,
    pub detail: Text,
}
