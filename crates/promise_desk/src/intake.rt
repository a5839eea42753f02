ghost use Rattle.std.specs.Prelude.{◌≡◌, ◌<◌, ◌≤◌, length, IfOk, IfErr};
ghost use Rattle.promise_desk.specs.Intake.{Moved, Appended, WasRead, most_bytes};
ghost use Rattle.promise_desk.specs.IntakeErrors.{IsCauseOf};

use desk_base::Source;
use std::alloc::{AllocError, Global};

/// The most bytes that are taken of an input.
const MOST_BYTES: usize = 20_971_520;

// How many bytes are asked for at a time.
const CHUNK: usize = 65_536;

/// Why an input wasn't read to its end.
#[derive(Clone, Copy, Debug, PartialEq, Eq)]
pub enum IntakeError {
    /// A call of the source failed.
    Fault,
    /// It has more bytes than are taken.
    TooLong,
    OutOfMemory,
}

impl From<AllocError> for IntakeError {
    ghost use Rattle.std.specs.Prelude.{◌≡◌};
    ghost use Rattle.promise_desk.specs.declared.intake.IntakeError.TheVariants.{OutOfMemory};

    ghost from_gives = { λ _ e. e ≡ OutOfMemory };

    fn from(_error: AllocError) -> IntakeError {
        IntakeError::OutOfMemory
    }
}

// Room for so many bytes.
fn make_chunk(alloc: Global, len: usize) -> Result<Vec<u8>, AllocError>
    ensures { IfOk result (λ chunk. length chunk.items ≡ len) }
{
    vec![in alloc; 0u8; len]
}

// Takes the next bytes, and answers how many; none at the end of the input.
fn take_next<I: Source>(
    input: &mut I,
    chunk: &mut Vec<u8>,
    bytes: &mut Vec<u8>,
) -> Result<usize, IntakeError>
    requires some_room { 0 < length chunk.old.items }
    requires fits { length chunk.old.items ≤ 65536 }
    ensures chunk { length chunk.new.items ≡ length chunk.old.items }
    ensures taken { IfOk result (Appended (I.left input.old) (I.left input.new) bytes.old.items bytes.new.items) }
    ensures cause { IfErr result (IsCauseOf (I.left input.old) (I.faults input.old) (I.faults input.new)) }
    ensures moved { Moved (I.faults input.old) (I.quiet input.old) (I.faults input.new) (I.quiet input.new) }
{
    match input.take(chunk.as_mut_slice()) {
        Ok(taken) => {
            let piece = &chunk.as_slice()[..taken as usize];
            bytes.extend_from_slice(piece)?;
            Ok(taken as usize)
        }
        Err(_) => Err(IntakeError::Fault),
    }
}

/// Reads an input to its end. It stops at the first byte past the most that are taken.
pub fn read_all<I: Source>(alloc: Global, input: &mut I) -> Result<Vec<u8>, IntakeError>
    ensures read { IfOk result (λ bytes. WasRead (I.left input.old) (I.left input.new) bytes.items) }
    ensures few { IfOk result (λ bytes. length bytes.items ≤ most_bytes) }
    ensures cause { IfErr result (IsCauseOf (I.left input.old) (I.faults input.old) (I.faults input.new)) }
    ensures moved { Moved (I.faults input.old) (I.quiet input.old) (I.faults input.new) (I.quiet input.new) }
{
    let mut chunk = make_chunk(alloc, CHUNK)?;
    let mut bytes = Vec::new(alloc);
    while bytes.len() <= MOST_BYTES {
        let taken = take_next(input, &mut chunk, &mut bytes)?;
        if taken == 0 {
            return Ok(bytes);
        }
    }
    Err(IntakeError::TooLong)
}
