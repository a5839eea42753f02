ghost use Rattle.std.specs.Prelude.{◌≡◌, ℕ, ◌++◌, List, OnOk, decimal};

use desk_base::{Bytes, OutOfMemory, Text};
use itoa::Buffer;

/// A buffer to which text is written piece by piece.
pub trait Put {
    /// The bytes written so far.
    ghost written: { Self → List ℕ };

    /// Puts a copy of the piece at the end.
    fn put(&mut self, piece: &str) -> Result<(), OutOfMemory>
        ensures { OnOk result (written self.new ≡ written self.old ++ piece.now) };

    /// Puts the number at the end, in decimals.
    fn put_number(&mut self, number: u64) -> Result<(), OutOfMemory>
        ensures { OnOk result (written self.new ≡ written self.old ++ decimal number) }
    {
        let mut buffer = Buffer::new();
        self.put(buffer.format(number))
    }
}

impl Put for Text {
    ghost written = { λ t. t };

    fn put(&mut self, piece: &str) -> Result<(), OutOfMemory> {
        self.append(piece)
    }
}

impl Put for Bytes {
    ghost written = { λ b. b };

    fn put(&mut self, piece: &str) -> Result<(), OutOfMemory> {
        self.append(piece.as_bytes())
    }
}
