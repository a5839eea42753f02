ghost use Rattle.std.specs.Prelude.{◌≡◌, ◌+◌, [], false};
ghost use Rattle.std.specs.Bool.{OnTrue, OnFalse};
ghost use Rattle.desk_base.specs.Calls.{faults_before, next_call, fails_next, Script};

use sqlite_items::Items;
use std::marker::Model;

/// The numbers, from 1, of the calls that are to fail.
#[derive(Drop)]
pub struct CallNumbers {
    numbers: Items<u64>,
}

impl Model for CallNumbers {
    ghost use Rattle.std.specs.Prelude.{ℕ, List};

    ghost Value = { List ℕ };

    ghost view = { λ c. c.numbers };
}

impl CallNumbers {
    /// The calls with these numbers.
    pub fn new(numbers: Items<u64>) -> CallNumbers
        ensures { result ≡ numbers }
    {
        CallNumbers { numbers }
    }

    /// Counts a call that is made now, and answers whether it is to fail. A call after the
    /// (2^64 - 1)st has no number and doesn't fail.
    pub(crate) fn counts(&self, calls: &mut u64) -> bool
        ensures number { calls.new ≡ next_call calls.old }
        ensures told { result ≡ fails_next (record { fails = self.now; made = calls.old }) }
        ensures fails { OnTrue result (faults_before self.now calls.new ≡ faults_before self.now calls.old + 1) }
        ensures passes { OnFalse result (faults_before self.now calls.new ≡ faults_before self.now calls.old) }
        ensures quiet { self.now ≡ [] → result ≡ false }
    {
        if *calls == u64::MAX {
            return false;
        }
        *calls += 1;
        self.numbers.as_slice().contains(calls)
    }
}
