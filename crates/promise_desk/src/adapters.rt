ghost use Rattle.std.specs.Prelude.{None, false};

use desk_base::{Sink, SinkFault, Source, SourceFault};
use std::io::{Read, Write};

/// A source that reads from any reader. It tells no bytes, and counts the reads that fail.
#[derive(Drop)]
pub struct ReadSource<R> {
    pub reader: R,
    pub faults: u64,
}

impl<R: Read> Source for ReadSource<R> {
    ghost left = { λ _. None };

    ghost faults = { λ s. s.faults };

    ghost quiet = { λ _. false };

    fn take(&mut self, buf: &mut [u8]) -> Result<u32, SourceFault> {
        match self.reader.read(buf) {
            Ok(count) => Ok(count as u32),
            Err(_) => {
                self.faults = self.faults.saturating_add(1);
                Err(SourceFault)
            }
        }
    }
}

/// A sink that writes to any writer. It tells no bytes, and counts the writes that fail or take
/// nothing.
#[derive(Drop)]
pub struct WriteSink<W> {
    pub writer: W,
    pub faults: u64,
}

impl<W: Write> Sink for WriteSink<W> {
    ghost written = { λ _. None };

    ghost faults = { λ s. s.faults };

    ghost room = { λ _. None };

    fn give(&mut self, piece: &[u8]) -> Result<u32, SinkFault> {
        let front = &piece[..piece.len().min(65_536)];
        match self.writer.write(front) {
            Ok(count) if count > 0 => Ok(count as u32),
            _ => {
                self.faults = self.faults.saturating_add(1);
                Err(SinkFault)
            }
        }
    }
}
