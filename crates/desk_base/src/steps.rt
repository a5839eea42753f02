ghost use Rattle.std.specs.Prelude.{◌≡◌, ◌+◌, min};
ghost use Rattle.desk_base.specs.Fault.{last_count};

use std::marker::Model;

/// The step counter of a run. Contracts see its count. Only `new` makes one, and nothing hands the
/// value of `L` back: so a call that is generic in `L` has no other counter of its type than the
/// one that it was handed.
#[derive(Drop)]
pub struct Steps<L> {
    ledger: L,
    count: u64,
}

impl<L> Model for Steps<L> {
    ghost use Rattle.std.specs.Prelude.{ℕ};

    ghost Value = { ℕ };

    ghost view = { λ s. s.count };
}

impl<L> Steps<L> {
    /// A counter at 0. It takes no memory.
    pub fn new(ledger: L) -> Steps<L>
        ensures { result ≡ 0 }
    {
        Steps { ledger, count: 0 }
    }

    /// Raises the count by one; at 2^64 - 1 it stays. It takes no memory.
    pub fn tick(&mut self)
        ensures { self.new ≡ min (self.old + 1) last_count }
    {
        self.count = self.count.saturating_add(1);
    }
}
