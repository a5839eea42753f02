ghost use Rattle.std.specs.Prelude.{◌≡◌, ℕ, ◌+◌, ◌-◌, ◌<◌, ◌≤◌, ◌^◌, ◌++◌, ◌↔◌, List, [], length, take, drop, min, IsTrue, IsErr, IfOk, OnErr, IfSome, Option, Some, None, Bool};
ghost use Rattle.desk_base.specs.Fault.{Rises, StaysUntold};
ghost use Rattle.desk_base.specs.Calls.{faults_told, after_call, fails_next, is_nil};

use crate::bytes::Bytes;
use crate::calls::CallNumbers;
use std::marker::Model;

/// The input failed.
#[derive(Clone, Copy, Debug, PartialEq, Eq)]
pub struct SourceFault;

/// An input of bytes.
pub trait Source {
    /// The bytes that are still to come, where the source tells them.
    ghost left: { Self → Option (List ℕ) };

    /// How many calls have failed so far.
    ghost faults: { Self → ℕ };

    /// Whether no call can fail any more.
    ghost quiet: { Self → Bool };

    /// Puts the next bytes at the front of `buf` and answers how many there are; 0 is the end of
    /// the input. A fault takes nothing.
    fn take(&mut self, buf: &mut [u8]) -> Result<u32, SourceFault>
        requires some_room { 0 < length buf.old }
        requires fits { length buf.old < 2 ^ 32 }
        ensures within { IfOk result (λ n. n ≤ length buf.new) }
        ensures there { IfSome (left self.old) (λ bytes. IfOk result (λ n. n ≤ length bytes)) }
        ensures front { IfSome (left self.old) (λ bytes. IfOk result (λ n. take n buf.new ≡ take n bytes)) }
        ensures taken { IfSome (left self.old) (λ bytes. IfOk result (λ n. left self.new ≡ Some (drop n bytes))) }
        ensures end { IfSome (left self.old) (λ bytes. IfOk result (λ n. (n ≡ 0) ↔ (bytes ≡ []))) }
        ensures kept { OnErr result (left self.new ≡ left self.old) }
        ensures untold { StaysUntold (left self.old) (left self.new) }
        ensures counted { OnErr result (Rises (faults self.old) (faults self.new)) }
        ensures never_falls { faults self.old ≤ faults self.new }
        ensures silent { IsTrue (quiet self.old) → IsTrue (quiet self.new) × (faults self.new ≡ faults self.old) };
}

/// A source in memory, which tells its bytes. The calls with the given numbers, from 1, fail, and
/// no others. Contracts see the bytes that are left and its script.
#[derive(Drop)]
pub struct MemSource {
    held: Bytes,
    at: usize,
    fails: CallNumbers,
    calls: u64,
}

impl Model for MemSource {
    ghost use Rattle.std.specs.Prelude.{◌≤◌, length, drop};
    ghost use Rattle.desk_base.specs.Calls.{MemInput};

    ghost Value = { MemInput };

    ghost view = { λ s. record { left = drop s.at s.held; script = record { fails = s.fails; made = s.calls } } };

    ghost invariant = { λ s. s.at ≤ length s.held };
}

impl MemSource {
    /// Moves what it gets. It takes no memory.
    pub fn new(held: Bytes, fails: CallNumbers) -> MemSource
        ensures held { result.left ≡ held }
        ensures script { result.script ≡ record { fails = fails; made = 0 } }
        ensures left { ⟦<MemSource as Source>⟧.left result ≡ Some held }
        ensures faults { ⟦<MemSource as Source>⟧.faults result ≡ 0 }
        ensures quiet { fails ≡ [] → IsTrue (⟦<MemSource as Source>⟧.quiet result) }
    {
        MemSource {
            held,
            at: 0,
            fails,
            calls: 0,
        }
    }
}

impl Source for MemSource {
    ghost left = { λ s. Some s.left };

    ghost faults = { λ s. faults_told s.script };

    ghost quiet = { λ s. is_nil s.script.fails };

    /// Beside what every source promises: the calls whose numbers were told fail, and no others,
    /// and a call that doesn't fail moves as many bytes as are left and fit.
    fn take(&mut self, buf: &mut [u8]) -> Result<u32, SourceFault>
        requires some_room { 0 < length buf.old }
        requires fits { length buf.old < 2 ^ 32 }
        ensures within { IfOk result (λ n. n ≤ length buf.new) }
        ensures there { IfOk result (λ n. n ≤ length self.old.left) }
        ensures front { IfOk result (λ n. take n buf.new ≡ take n self.old.left) }
        ensures taken { IfOk result (λ n. self.new.left ≡ drop n self.old.left) }
        ensures end { IfOk result (λ n. (n ≡ 0) ↔ (self.old.left ≡ [])) }
        ensures kept { OnErr result (self.new.left ≡ self.old.left) }
        ensures counted { OnErr result (Rises (faults_told self.old.script) (faults_told self.new.script)) }
        ensures never_falls { faults_told self.old.script ≤ faults_told self.new.script }
        ensures silent { IsTrue (is_nil self.old.script.fails) → IsTrue (is_nil self.new.script.fails) × (faults_told self.new.script ≡ faults_told self.old.script) }
        ensures told { IsErr result ↔ IsTrue (fails_next self.old.script) }
        ensures script { self.new.script ≡ after_call self.old.script }
        ensures whole { IfOk result (λ n. n ≡ min (length buf.old) (length self.old.left)) }
    {
        if self.fails.counts(&mut self.calls) {
            return Err(SourceFault);
        }
        let from = self.at;
        let n = buf.len().min(self.held.len() - from);
        buf[..n].copy_from_slice(&self.held.as_slice()[from..from + n]);
        self.at = from + n;
        Ok(n as u32)
    }
}
