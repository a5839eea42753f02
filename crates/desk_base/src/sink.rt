ghost use Rattle.std.specs.Prelude.{◌≡◌, ℕ, ◌+◌, ◌-◌, ◌<◌, ◌≤◌, ◌++◌, ◌↔◌, ◌⊎◌, min, List, [], length, take, IsTrue, IsErr, IsOk, IfOk, OnErr, IfSome, Option, Some};
ghost use Rattle.desk_base.specs.Fault.{Rises, StaysUntold};
ghost use Rattle.desk_base.specs.Calls.{faults_told, after_call, fails_next, room_of};

use crate::calls::CallNumbers;
use crate::memory::OutOfMemory;
use std::alloc::Global;
use std::marker::Model;

/// The output failed.
#[derive(Clone, Copy, Debug, PartialEq, Eq)]
pub struct SinkFault;

/// An output of bytes.
pub trait Sink {
    /// The bytes written so far, where the sink tells them.
    ghost written: { Self → Option (List ℕ) };

    /// How many calls have failed so far.
    ghost faults: { Self → ℕ };

    /// How many bytes it takes yet without a fault, where it says so.
    ghost room: { Self → Option ℕ };

    /// Writes a front of the piece, at least one byte, and answers how many. A fault writes
    /// nothing.
    fn give(&mut self, piece: &[u8]) -> Result<u32, SinkFault>
        requires { 0 < length piece.now }
        ensures some { IfOk result (λ n. 0 < n) }
        ensures within { IfOk result (λ n. n ≤ length piece.now) }
        ensures appended { IfSome (written self.old) (λ bytes. IfOk result (λ n. written self.new ≡ Some (bytes ++ take n piece.now))) }
        ensures kept { OnErr result (written self.new ≡ written self.old) }
        ensures untold { StaysUntold (written self.old) (written self.new) }
        ensures counted { OnErr result (Rises (faults self.old) (faults self.new)) }
        ensures never_falls { faults self.old ≤ faults self.new }
        ensures roomy { IfSome (room self.old) (λ r. 0 < r → IfOk result (λ n. (n ≤ r) × (room self.new ≡ Some (r - n)))) }
        ensures silent { IfSome (room self.old) (λ r. 0 < r → IsOk result × (faults self.new ≡ faults self.old)) };
}

/// A sink in memory, which tells its bytes. It writes what fits; where no room is left a call
/// fails. The calls with the given numbers, from 1, fail too, and no others. Contracts see the
/// bytes written, the room that is left and its script.
#[derive(Drop)]
pub struct MemSink {
    bytes: Vec<u8>,
    room: u32,
    fails: CallNumbers,
    calls: u64,
    full: u64,
}

impl Model for MemSink {
    ghost use Rattle.std.specs.Prelude.{◌≤◌, ◌+◌, vec_len, vec_capacity};
    ghost use Rattle.desk_base.specs.Calls.{MemOutput};

    ghost Value = { MemOutput };

    ghost view = { λ s. record { written = s.bytes.items; room = s.room; script = record { fails = s.fails; made = s.calls }; full = s.full } };

    ghost invariant = { λ s. vec_len s.bytes + s.room ≤ vec_capacity s.bytes };
}

impl MemSink {
    /// Takes room for that many bytes at once.
    pub fn new(alloc: Global, room: u32, fails: CallNumbers) -> Result<MemSink, OutOfMemory>
        ensures nothing { IfOk result (λ sink. sink.written ≡ []) }
        ensures empty { IfOk result (λ sink. sink.room ≡ room) }
        ensures script { IfOk result (λ sink. sink.script ≡ record { fails = fails; made = 0 }) }
        ensures written { IfOk result (λ sink. ⟦<MemSink as Sink>⟧.written sink ≡ Some []) }
        ensures faults { IfOk result (λ sink. ⟦<MemSink as Sink>⟧.faults sink ≡ 0) }
        ensures room { fails ≡ [] → IfOk result (λ sink. ⟦<MemSink as Sink>⟧.room sink ≡ Some room) }
    {
        Ok(MemSink {
            bytes: Vec::with_capacity(alloc, room as usize)?,
            room,
            fails,
            calls: 0,
            full: 0,
        })
    }

    /// The bytes written so far. It takes no memory.
    pub fn written(&self) -> &[u8]
        ensures { result.now ≡ self.now.written }
    {
        self.bytes.as_slice()
    }
}

impl Sink for MemSink {
    ghost written = { λ s. Some s.written };

    ghost faults = { λ s. faults_told s.script + s.full };

    ghost room = { λ s. room_of s.script.fails s.room };

    /// Beside what every sink promises: the calls whose numbers were told fail, and those that find
    /// no room, and no others; a call that doesn't fail writes as many bytes as there are and fit.
    fn give(&mut self, piece: &[u8]) -> Result<u32, SinkFault>
        requires { 0 < length piece.now }
        ensures some { IfOk result (λ n. 0 < n) }
        ensures within { IfOk result (λ n. n ≤ length piece.now) }
        ensures appended { IfOk result (λ n. self.new.written ≡ self.old.written ++ take n piece.now) }
        ensures kept { OnErr result (self.new.written ≡ self.old.written) }
        ensures counted { OnErr result (Rises (faults_told self.old.script + self.old.full) (faults_told self.new.script + self.new.full)) }
        ensures never_falls { faults_told self.old.script + self.old.full ≤ faults_told self.new.script + self.new.full }
        ensures roomy { IfSome (room_of self.old.script.fails self.old.room) (λ r. 0 < r → IfOk result (λ n. (n ≤ r) × (room_of self.new.script.fails self.new.room ≡ Some (r - n)))) }
        ensures silent { IfSome (room_of self.old.script.fails self.old.room) (λ r. 0 < r → IsOk result × (faults_told self.new.script + self.new.full ≡ faults_told self.old.script + self.old.full)) }
        ensures told { IsErr result ↔ (IsTrue (fails_next self.old.script) ⊎ (self.old.room ≡ 0)) }
        ensures script { self.new.script ≡ after_call self.old.script }
        ensures whole { IfOk result (λ n. n ≡ min (length piece.now) self.old.room) }
        ensures smaller { IfOk result (λ n. self.new.room ≡ self.old.room - n) }
        ensures full { OnErr result (self.new.room ≡ self.old.room) }
    {
        if self.fails.counts(&mut self.calls) {
            return Err(SinkFault);
        }
        if self.room == 0 {
            self.full = self.full.saturating_add(1);
            return Err(SinkFault);
        }
        let n = piece.len().min(self.room as usize) as u32;
        self.bytes.extend_from_slice(&piece[..n as usize]).unwrap();
        self.room -= n;
        Ok(n)
    }
}
