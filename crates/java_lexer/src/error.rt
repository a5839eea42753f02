ghost use Rattle.std.specs.Prelude.{◌≡◌};
ghost use Rattle.java_lexer.specs.declared.error.LexError.TheVariants as fault;

use desk_base::OutOfMemory;
use std::alloc::AllocError;
use std::error::Error;
use std::fmt;

/// Why a text has no tokens: the place of its first lexical fault, a byte's offset from 0, or want
/// of memory.
#[derive(Clone, Copy, Debug, PartialEq, Eq)]
pub enum LexError {
    Lex { at: u32 },
    OutOfMemory,
}

impl fmt::Display for LexError {
    fn fmt<W: fmt::Write>(&self, f: &mut fmt::Formatter<W>) -> fmt::Result {
        match self {
            LexError::Lex { at } => write!(f, "no token begins at byte {at}"),
            LexError::OutOfMemory => write!(f, "out of memory"),
        }
    }
}

impl Error for LexError {}

impl From<OutOfMemory> for LexError {
    ghost from_gives = { λ _ error. error ≡ fault.OutOfMemory };

    fn from(_error: OutOfMemory) -> LexError {
        LexError::OutOfMemory
    }
}

impl From<AllocError> for LexError {
    ghost from_gives = { λ _ error. error ≡ fault.OutOfMemory };

    fn from(_error: AllocError) -> LexError {
        LexError::OutOfMemory
    }
}
