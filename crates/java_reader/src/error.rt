use desk_base::{LimitName, OutOfMemory};
use std::alloc::{AllocError, AllocFailed};
use std::error::Error;
use std::fmt;

/// Why a file wasn't read. A place is a byte's offset from 0, at most the file's length.
#[derive(Clone, Copy, Debug, PartialEq, Eq)]
pub enum ReadError {
    /// The file is too long, at its limit, or its first name that is too long begins there.
    Limit { which: LimitName, at: u32 },
    /// No blank, comment or token begins there, or the text isn't UTF-8 from there on.
    Lex { at: u32 },
    /// The tokens spell no file. The longest list of parts that begins the file (lines, headers up to
    /// their `{`, members, closing `}`) ends before the token there, or before the end of the file.
    Grammar { at: u32 },
    /// The allocator had no memory. It may come at any moment.
    OutOfMemory,
}

impl fmt::Display for ReadError {
    fn fmt<W: fmt::Write>(&self, f: &mut fmt::Formatter<W>) -> fmt::Result {
        match self {
            ReadError::Limit {
                which: LimitName::NameBytes,
                at,
            } => write!(f, "the name at byte {at} is too long"),
            ReadError::Limit { at, .. } => write!(f, "the file has more than {at} bytes"),
            ReadError::Lex { at } => write!(f, "no token begins at byte {at}"),
            ReadError::Grammar { at } => write!(f, "no part of a file begins at byte {at}"),
            ReadError::OutOfMemory => f.write_str("out of memory"),
        }
    }
}

impl Error for ReadError {}

impl From<OutOfMemory> for ReadError {
    ghost use Rattle.std.specs.Prelude.{◌≡◌};
    ghost use Rattle.java_reader.specs.declared.error.ReadError.TheVariants.{OutOfMemory as NoMemory};

    ghost from_gives = { λ _ e. e ≡ NoMemory };

    fn from(_error: OutOfMemory) -> ReadError {
        ReadError::OutOfMemory
    }
}

impl From<AllocError> for ReadError {
    ghost use Rattle.std.specs.Prelude.{◌≡◌};
    ghost use Rattle.java_reader.specs.declared.error.ReadError.TheVariants.{OutOfMemory as NoMemory};

    ghost from_gives = { λ _ e. e ≡ NoMemory };

    fn from(_error: AllocError) -> ReadError {
        ReadError::OutOfMemory
    }
}

impl<T: Drop> From<AllocFailed<T>> for ReadError {
    ghost use Rattle.std.specs.Prelude.{◌≡◌};
    ghost use Rattle.java_reader.specs.declared.error.ReadError.TheVariants.{OutOfMemory as NoMemory};

    ghost from_gives = { λ _ e. e ≡ NoMemory };

    fn from(_error: AllocFailed<T>) -> ReadError {
        ReadError::OutOfMemory
    }
}
