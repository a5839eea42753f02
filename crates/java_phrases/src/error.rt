use desk_base::OutOfMemory;
use std::alloc::{AllocError, AllocFailed};
use std::error::Error;
use std::fmt;

/// Why the tokens weren't read.
#[derive(Clone, Copy, Debug, PartialEq, Eq)]
pub enum SyntaxError {
    /// The tokens don't spell what was asked for.
    NotSpelled,
    /// The allocator had no memory. It may come at any moment.
    OutOfMemory,
}

impl fmt::Display for SyntaxError {
    fn fmt<W: fmt::Write>(&self, f: &mut fmt::Formatter<W>) -> fmt::Result {
        f.write_str(match self {
            SyntaxError::NotSpelled => "the tokens do not spell what was to be read",
            SyntaxError::OutOfMemory => "out of memory",
        })
    }
}

impl Error for SyntaxError {}

impl From<OutOfMemory> for SyntaxError {
    ghost use Rattle.std.specs.Prelude.{◌≡◌};
    ghost use Rattle.java_phrases.specs.declared.error.SyntaxError.TheVariants.{OutOfMemory as NoMemory};

    ghost from_gives = { λ _ e. e ≡ NoMemory };

    fn from(_error: OutOfMemory) -> SyntaxError {
        SyntaxError::OutOfMemory
    }
}

impl From<AllocError> for SyntaxError {
    ghost use Rattle.std.specs.Prelude.{◌≡◌};
    ghost use Rattle.java_phrases.specs.declared.error.SyntaxError.TheVariants.{OutOfMemory as NoMemory};

    ghost from_gives = { λ _ e. e ≡ NoMemory };

    fn from(_error: AllocError) -> SyntaxError {
        SyntaxError::OutOfMemory
    }
}

impl<T: Drop> From<AllocFailed<T>> for SyntaxError {
    ghost use Rattle.std.specs.Prelude.{◌≡◌};
    ghost use Rattle.java_phrases.specs.declared.error.SyntaxError.TheVariants.{OutOfMemory as NoMemory};

    ghost from_gives = { λ _ e. e ≡ NoMemory };

    fn from(_error: AllocFailed<T>) -> SyntaxError {
        SyntaxError::OutOfMemory
    }
}
