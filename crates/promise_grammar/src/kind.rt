ghost use Rattle.std.specs.Prelude.{◌≡◌, ◌≢◌, IfSome, IfNone};
ghost use Rattle.promise_grammar.specs.declared.kind.PromiseKind.{PromiseKind};
ghost use Rattle.promise_grammar.specs.Kind.{name_of, kind_text, kind_named};

use desk_base::PromiseName;

/// The eleven kinds of promises that an annotation may give.
#[derive(Clone, Copy, Debug, PartialEq, Eq)]
pub enum PromiseKind {
    Region,
    InRegion,
    RegionLock,
    RequiresLock,
    Unique,
    Borrowed,
    RegionEffects,
    Starts,
    Promise,
    Assume,
    Vouch,
}

impl PromiseKind {
    /// The kind's name among the names of promises.
    pub fn name(self) -> PromiseName
        ensures { result ≡ name_of self }
    {
        match self {
            PromiseKind::Region => PromiseName::Region,
            PromiseKind::InRegion => PromiseName::InRegion,
            PromiseKind::RegionLock => PromiseName::RegionLock,
            PromiseKind::RequiresLock => PromiseName::RequiresLock,
            PromiseKind::Unique => PromiseName::Unique,
            PromiseKind::Borrowed => PromiseName::Borrowed,
            PromiseKind::RegionEffects => PromiseName::RegionEffects,
            PromiseKind::Starts => PromiseName::Starts,
            PromiseKind::Promise => PromiseName::Promise,
            PromiseKind::Assume => PromiseName::Assume,
            PromiseKind::Vouch => PromiseName::Vouch,
        }
    }

    /// The kind of that written name.
    pub fn from_text(text: &[u8]) -> Option<PromiseKind>
        ensures found { IfSome result (λ kind. text.now ≡ kind_text kind) }
        ensures value { result ≡ kind_named text.now }
        ensures none { IfNone result ((kind : PromiseKind) → text.now ≢ kind_text kind) }
    {
        if text == b"Region".as_slice() {
            Some(PromiseKind::Region)
        } else if text == b"InRegion".as_slice() {
            Some(PromiseKind::InRegion)
        } else if text == b"RegionLock".as_slice() {
            Some(PromiseKind::RegionLock)
        } else if text == b"RequiresLock".as_slice() {
            Some(PromiseKind::RequiresLock)
        } else if text == b"Unique".as_slice() {
            Some(PromiseKind::Unique)
        } else if text == b"Borrowed".as_slice() {
            Some(PromiseKind::Borrowed)
        } else if text == b"RegionEffects".as_slice() {
            Some(PromiseKind::RegionEffects)
        } else if text == b"Starts".as_slice() {
            Some(PromiseKind::Starts)
        } else if text == b"Promise".as_slice() {
            Some(PromiseKind::Promise)
        } else if text == b"Assume".as_slice() {
            Some(PromiseKind::Assume)
        } else if text == b"Vouch".as_slice() {
            Some(PromiseKind::Vouch)
        } else {
            None
        }
    }
}
