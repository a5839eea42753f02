ghost use Rattle.std.specs.Prelude.{◌≡◌};

use desk_base::OutOfMemory;
use std::alloc::{AllocError, AllocFailed};
use std::error::Error;
use std::fmt;

/// Why a content has no tree.
#[derive(Clone, Copy, Debug, PartialEq, Eq)]
pub enum PromiseError {
    /// No promise of the kind spells the content.
    Grammar,
    /// The allocator had no memory. It may come at any moment.
    OutOfMemory,
}

impl fmt::Display for PromiseError {
    fn fmt<W: fmt::Write>(&self, f: &mut fmt::Formatter<W>) -> fmt::Result {
        match self {
            PromiseError::Grammar => f.write_str("bad content"),
            PromiseError::OutOfMemory => f.write_str("out of memory"),
        }
    }
}

impl Error for PromiseError {}

impl From<OutOfMemory> for PromiseError {
    ghost use Rattle.promise_grammar.specs.declared.error.PromiseError.TheVariants.{OutOfMemory};

    ghost from_gives = { λ _ e. e ≡ OutOfMemory };

    fn from(_error: OutOfMemory) -> PromiseError {
        PromiseError::OutOfMemory
    }
}

impl From<AllocError> for PromiseError {
    ghost use Rattle.promise_grammar.specs.declared.error.PromiseError.TheVariants.{OutOfMemory};

    ghost from_gives = { λ _ e. e ≡ OutOfMemory };

    fn from(_error: AllocError) -> PromiseError {
        PromiseError::OutOfMemory
    }
}

impl<T: Drop> From<AllocFailed<T>> for PromiseError {
    ghost use Rattle.promise_grammar.specs.declared.error.PromiseError.TheVariants.{OutOfMemory};

    ghost from_gives = { λ _ e. e ≡ OutOfMemory };

    fn from(_error: AllocFailed<T>) -> PromiseError {
        PromiseError::OutOfMemory
    }
}
